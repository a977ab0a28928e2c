// The conditions on a chain of links.
ghost use Rattle.std.specs.Prelude.{IfOk, IfSome, List, length, option_map, true, ◌-◌, ◌<◌, ◌^◌, ◌≡◌};
ghost use Rattle.fm_poly.specs.declared.ring.Ring.{Ring as RingValue};
ghost use Rattle.fm_report.specs.Parts.{Part};
ghost use Rattle.fm_report.specs.Sheets.{numbered};
ghost use Rattle.fm_parts.specs.Conditions.{Log};
ghost use Rattle.fm_parts.specs.Replays.{are_numbers, is_number};
ghost use Rattle.fm_parts.specs.Shapes.{rows_of};
ghost use Rattle.fm_judge.specs.Claims as claims;
ghost use Rattle.fm_judge.specs.Goals.{Goal as AimedGoal};
ghost use Rattle.fm_pres.specs.Tables.{part_at, parts_in};
ghost use Rattle.fm_conditions.specs.Meanings.{CanBeFormed, IsOperand, logs_of, operand_part};
ghost use Rattle.fm_conditions.specs.declared.kept_log.KeptLog.{KeptLog as KeptLogValue};
ghost use Rattle.fm_claims.specs.Named.{Finds, IsLink, filled_by, link_part, settled_by};
ghost use Rattle.fm_pres.specs.Blocks.{AreBlockParts, block_of, parts_at};

use crate::answering::outside;
use crate::link::Link;
use crate::numbers::{generating, nth, part};
use crate::tools::{beside, rows, times, twisted};
use fm_conditions::{Condition, KeptLog, Operand};
use fm_lines::{Excluded, Generated};
use fm_pres::{Block, Table};
use std::alloc::{AllocError, Global};

/// L_j, where these parts are found.
pub(crate) fn link_at(block: &Block, phi: u32, found: &[u32], j: u64) -> Option<Link>
    ensures link { (r : RingValue) (g : AimedGoal) (ps : List Part) (logs : List Log)
        → claims.link_at r g (block_of ps block.now) ps logs (part_at ps phi) (parts_at ps found.now) j ≡ option_map (link_part ps) result }
    ensures there { (ps : List Part) → AreBlockParts ps block.now → is_number ps phi ≡ true → are_numbers ps found.now ≡ true
        → IfSome result (IsLink ps) }
{
    let n = nth(&block.kernels, 0)?;
    if j == 0 {
        return Some(Link::First { n, phi });
    }
    let k = nth(found, j - 1)?;
    Some(Link::Found(k))
}

/// The matrix that is meant.
pub(crate) fn matrix(alloc: Global, link: Link) -> Result<Operand, AllocError>
    ensures part { (r : RingValue) (ps : List Part) → IfOk result (λ o. operand_part r ps o ≡ link_part ps link) }
    ensures there { (r : RingValue) (ps : List Part) → IsLink ps link → IfOk result (IsOperand r ps) }
    ensures formable { (r : RingValue) (ps : List Part) → IfOk result (CanBeFormed r ps) }
{
    match link {
        Link::First { n, phi } => beside(alloc, Operand::Part(n), Operand::Part(phi)),
        Link::Found(k) => Ok(Operand::Part(k)),
    }
}

/// The number of its rows.
pub(crate) fn height(table: &Table, link: Link) -> u32
    requires { IsLink (parts_in table.now) link }
    ensures { result ≡ rows_of (link_part (parts_in table.now) link) }
{
    match link {
        Link::First { n, .. } => rows(table, n),
        Link::Found(k) => rows(table, k),
    }
}

/// Part k is the next link, where what it rests on is there.
pub(crate) fn links(
    alloc: Global,
    table: &Table,
    logs: &[KeptLog],
    block: &Block,
    phi: u32,
    found: &[u32],
    k: u32,
    shown: &Generated,
) -> Result<Option<Condition>, AllocError>
    requires few { length (parts_in table.now) < 2 ^ 32 }
    requires few_logs { length logs.now < 2 ^ 32 }
    ensures { let ps = parts_in table.now in (r : RingValue) (g : AimedGoal)
        → AreBlockParts ps block.now → is_number ps phi ≡ true → are_numbers ps found.now ≡ true → is_number ps k ≡ true
        → IfOk result (Finds r ps logs.now (claims.on_link r g (block_of ps block.now) ps (logs_of ps logs.now)
        (part_at ps phi) (parts_at ps found.now) (part_at ps k) shown.now.log shown.now.x shown.now.w)) }
{
    let Some(u) = nth(&block.morphism, 0) else {
        return Ok(None);
    };
    let Some(last) = link_at(block, phi, found, found.len() as u64) else {
        return Ok(None);
    };
    let Some(shown) = generating(table, logs, shown) else {
        return Ok(None);
    };
    let image = matrix(alloc, last)?;
    let b = twisted(alloc, image, 1)?;
    Ok(Some(Condition::Preimage {
        log: shown.log,
        a: Operand::Part(u),
        b,
        c: k,
        x: shown.x,
        w: shown.w,
    }))
}

/// The last link but one is not everything, where what is named is there.
pub(crate) fn falls_short(
    alloc: Global,
    table: &Table,
    logs: &[KeptLog],
    block: &Block,
    phi: u32,
    found: &[u32],
    shown: &Excluded,
) -> Result<Option<Condition>, AllocError>
    requires few_logs { length logs.now < 2 ^ 32 }
    requires block { AreBlockParts (parts_in table.now) block.now }
    requires phi { is_number (parts_in table.now) phi ≡ true }
    requires found { are_numbers (parts_in table.now) found.now ≡ true }
    ensures { let ps = parts_in table.now in (r : RingValue) (g : AimedGoal) → IfOk result (Finds r ps logs.now
        (claims.is_short r g (block_of ps block.now) ps (logs_of ps logs.now)
        (part_at ps phi) (parts_at ps found.now) (length found.now - 1) shown.now.log shown.now.column shown.now.by.items)) }
{
    let j = (found.len() as u64).saturating_sub(1);
    let Some(link) = link_at(block, phi, found, j) else {
        return Ok(None);
    };
    let height = height(table, link);
    let image = matrix(alloc, link)?;
    outside(alloc, logs, image, Operand::Unit(height), height, shown)
}

/// The last link is everything, where W is there.
pub(crate) fn fills(
    alloc: Global,
    table: &Table,
    block: &Block,
    phi: u32,
    found: &[u32],
    w: u64,
) -> Result<Option<Condition>, AllocError>
    requires few { length (parts_in table.now) < 2 ^ 32 }
    requires block { AreBlockParts (parts_in table.now) block.now }
    requires phi { is_number (parts_in table.now) phi ≡ true }
    requires found { are_numbers (parts_in table.now) found.now ≡ true }
    ensures { let ps = parts_in table.now in (r : RingValue) (g : AimedGoal) (ls : List KeptLogValue) → IfOk result (Finds r ps ls (filled_by r
        (claims.link_at r g (block_of ps block.now) ps (logs_of ps ls) (part_at ps phi) (parts_at ps found.now) (length found.now)) (numbered ps w))) }
{
    let Some(last) = link_at(block, phi, found, found.len() as u64) else {
        return Ok(None);
    };
    let Some(w) = part(table, w) else {
        return Ok(None);
    };
    let height = height(table, last);
    let image = matrix(alloc, last)?;
    let product = times(alloc, image, Operand::Part(w))?;
    Ok(Some(Condition::Equal(product, Operand::Unit(height))))
}

/// The last link adds nothing, where W is there.
pub(crate) fn closed(
    alloc: Global,
    table: &Table,
    block: &Block,
    phi: u32,
    found: &[u32],
    w: u64,
) -> Result<Option<Condition>, AllocError>
    requires few { length (parts_in table.now) < 2 ^ 32 }
    ensures { let ps = parts_in table.now in (r : RingValue) (g : AimedGoal) (ls : List KeptLogValue)
        → AreBlockParts ps block.now → is_number ps phi ≡ true → are_numbers ps found.now ≡ true
        → IfOk result (Finds r ps ls (settled_by
        (claims.link_at r g (block_of ps block.now) ps (logs_of ps ls) (part_at ps phi) (parts_at ps found.now) (length found.now - 1))
        (claims.link_at r g (block_of ps block.now) ps (logs_of ps ls) (part_at ps phi) (parts_at ps found.now) (length found.now)) (numbered ps w))) }
{
    let count = found.len() as u64;
    let Some(before) = link_at(block, phi, found, count.saturating_sub(1)) else {
        return Ok(None);
    };
    let Some(last) = link_at(block, phi, found, count) else {
        return Ok(None);
    };
    let Some(w) = part(table, w) else {
        return Ok(None);
    };
    let image = matrix(alloc, before)?;
    let product = times(alloc, image, Operand::Part(w))?;
    let last = matrix(alloc, last)?;
    Ok(Some(Condition::Equal(last, product)))
}
