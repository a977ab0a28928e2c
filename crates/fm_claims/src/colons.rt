// The conditions on powers of a polynomial, and on colons by it.
ghost use Rattle.std.specs.Prelude.{IfOk, IfSome, List, [], length, option_map, true, ◌-◌, ◌<◌, ◌∷◌, ◌^◌, ◌≡◌};
ghost use Rattle.fm_poly.specs.Bounds.{AreWithinBound};
ghost use Rattle.fm_poly.specs.Polys.{pairs};
ghost use Rattle.fm_poly.specs.declared.ring.Ring.{Ring as RingValue};
ghost use Rattle.fm_report.specs.Parts.{Part, times as times_of};
ghost use Rattle.fm_report.specs.Sheets.{Block as SheetBlock, numbered};
ghost use Rattle.fm_parts.specs.Conditions.{Log, equal};
ghost use Rattle.fm_parts.specs.Replays.{are_numbers, is_number};
ghost use Rattle.fm_parts.specs.Values.{is_within_bound};
ghost use Rattle.fm_judge.specs.Claims as claims;
ghost use Rattle.fm_judge.specs.Goals.{Goal as AimedGoal};
ghost use Rattle.fm_pres.specs.Tables.{part_at, parts_in};
ghost use Rattle.fm_conditions.specs.Meanings.{IsCondition, IsFormable, condition_of, logs_of};
ghost use Rattle.fm_conditions.specs.declared.condition.Condition.TheVariants as kinds;
ghost use Rattle.fm_conditions.specs.declared.kept_log.KeptLog.{KeptLog as KeptLogValue};
ghost use Rattle.fm_claims.specs.Named.{Finds, FindsAll, not_everything, power_covered_by, power_outside_of, sent_by_polynomial, settled_by};
ghost use Rattle.fm_pres.specs.Blocks.{AreBlockParts, block_of, parts_at};
ghost use Rattle.fm_places.specs.Meanings.{inverted as inverted_by};

use crate::answering::{covered, outside, pair};
use crate::numbers::{generating, nth, part};
use crate::tools::{rows, times};
use fm_conditions::{Condition, KeptLog, Operand};
use fm_lines::{Excluded, Generated};
use fm_places::Aim;
use fm_poly::{Poly, Ring};
use fm_pres::{Block, Table};
use std::alloc::{AllocError, Global};

/// A copy of the polynomial that is inverted; 0, where none is.
pub(crate) fn inverted(alloc: Global, ring: Ring, aim: &Aim) -> Result<Poly, AllocError>
    ensures { IfOk result (λ f. f ≡ inverted_by ring aim.now) }
{
    match aim {
        Aim::Inverting { f, .. } => f.copy(alloc),
        _ => Ok(Poly::zero(alloc, ring)),
    }
}

// Each exponent of f is within the bound, as of all monomials that are kept.
fn within_bound(f: &Poly)
    ensures { AreWithinBound (pairs f.now.terms) }
{
    let mut terms = f.terms();
    'terms: loop {
        let Some((term, later)) = terms.split_first() else {
            return;
        };
        let _vars = term.mono.vars();
        terms = later;
    }
}

/// f^k can be formed, and it sends everything into the image of part `kernel`, where this and W are there.
pub(crate) fn power_covered(
    alloc: Global,
    table: &Table,
    ring: Ring,
    aim: &Aim,
    kernel: Option<u32>,
    k: u64,
    w: u64,
) -> Result<Option<Vec<Condition>>, AllocError>
    requires few { length (parts_in table.now) < 2 ^ 32 }
    requires kernel { IfSome kernel (λ n. is_number (parts_in table.now) n ≡ true) }
    ensures { let ps = parts_in table.now in (ls : List KeptLogValue) → (inverted_by ring aim.now).ring ≡ ring
        → IfOk result (FindsAll ring ps ls (power_covered_by ring (inverted_by ring aim.now) k (option_map (part_at ps) kernel) (numbered ps w))) }
{
    let Some(kernel) = kernel else {
        return Ok(None);
    };
    let Some(w) = part(table, w) else {
        return Ok(None);
    };
    let image = power_image(alloc, ring, aim, k, rows(table, kernel), kernel, w)?;
    let conditions = after_powers(alloc, ring, aim, k, image)?;
    Ok(Some(conditions))
}

// That f^k can be formed, and then the condition.
fn after_powers(
    alloc: Global,
    ring: Ring,
    aim: &Aim,
    k: u64,
    condition: Condition,
) -> Result<Vec<Condition>, AllocError>
    ensures { IfOk result (λ cs. cs.items ≡ kinds.Powers (inverted_by ring aim.now) k ∷ condition ∷ []) }
{
    let f = inverted(alloc, ring, aim)?;
    pair(alloc, Condition::Powers { f, k }, condition)
}

// f^k times the unit matrix with so many rows is part `kernel` times part w.
fn power_image(
    alloc: Global,
    ring: Ring,
    aim: &Aim,
    k: u64,
    rows: u32,
    kernel: u32,
    w: u32,
) -> Result<Condition, AllocError>
    ensures same { (ps : List Part) (ls : List Log) → IfOk result (λ c. condition_of ring ps ls c
        ≡ equal (claims.power_part ring (inverted_by ring aim.now) k rows) (times_of (part_at ps kernel) (part_at ps w))) }
    ensures testable { (ps : List Part) (ls : List KeptLogValue)
        → (inverted_by ring aim.now).ring ≡ ring → is_number ps kernel ≡ true → is_number ps w ≡ true → IfOk result (IsCondition ring ps ls) }
    ensures formable { (ps : List Part) → is_within_bound ring (claims.factored_part ring (inverted_by ring aim.now) k) ≡ true
        → IfOk result (IsFormable ring ps) }
{
    let image = times(alloc, Operand::Part(kernel), Operand::Part(w))?;
    let f = inverted(alloc, ring, aim)?;
    Ok(Condition::Equal(Operand::Power { f, k, rows }, image))
}

/// f^k can be formed, and does not send everything into the image of part `kernel`, where what is named is there.
pub(crate) fn power_outside(
    alloc: Global,
    table: &Table,
    logs: &[KeptLog],
    ring: Ring,
    aim: &Aim,
    kernel: Option<u32>,
    k: u64,
    shown: &Excluded,
) -> Result<Option<Vec<Condition>>, AllocError>
    requires few_logs { length logs.now < 2 ^ 32 }
    requires kernel { IfSome kernel (λ n. is_number (parts_in table.now) n ≡ true) }
    ensures { let ps = parts_in table.now in (g : AimedGoal) (b : SheetBlock) → (inverted_by ring aim.now).ring ≡ ring
        → IfOk result (FindsAll ring ps logs.now (power_outside_of ring g b ps (logs_of ps logs.now)
        (inverted_by ring aim.now) k (option_map (part_at ps) kernel) shown.now.log shown.now.column shown.now.by.items)) }
{
    let Some(kernel) = kernel else {
        return Ok(None);
    };
    let rows = rows(table, kernel);
    let f = inverted(alloc, ring, aim)?;
    let power = Operand::Power { f, k, rows };
    let outside = outside(alloc, logs, Operand::Part(kernel), power, rows, shown)?;
    let Some(outside) = outside else {
        return Ok(None);
    };
    let conditions = after_powers(alloc, ring, aim, k, outside)?;
    Ok(Some(conditions))
}

/// C_j, where these are found.
pub(crate) fn colon_at(block: &Block, t: u64, found: &[u32], j: u64) -> Option<u32>
    ensures part { (r : RingValue) (g : AimedGoal) (ps : List Part) (logs : List Log)
        → claims.colon_at r g (block_of ps block.now) ps logs t (parts_at ps found.now) j ≡ option_map (part_at ps) result }
    ensures there { (ps : List Part) → AreBlockParts ps block.now → are_numbers ps found.now ≡ true → IfSome result (λ k. is_number ps k ≡ true) }
{
    let kernel = nth(&block.kernels, t)?;
    if j == 0 {
        return Some(kernel);
    }
    nth(found, j - 1)
}

/// Part k generates all that f sends into the image of part c, where this, the log, X and W are there.
pub(crate) fn colon_sent(
    alloc: Global,
    table: &Table,
    logs: &[KeptLog],
    ring: Ring,
    aim: &Aim,
    c: Option<u32>,
    k: u32,
    shown: &Generated,
) -> Result<Option<Condition>, AllocError>
    requires few { length (parts_in table.now) < 2 ^ 32 }
    requires few_logs { length logs.now < 2 ^ 32 }
    requires c { IfSome c (λ n. is_number (parts_in table.now) n ≡ true) }
    ensures { let ps = parts_in table.now in (g : AimedGoal) (b : SheetBlock) → (inverted_by ring aim.now).ring ≡ ring → is_number ps k ≡ true
        → IfOk result (Finds ring ps logs.now (sent_by_polynomial ring g b ps (logs_of ps logs.now)
        (inverted_by ring aim.now) (option_map (part_at ps) c) (part_at ps k) shown.now.log shown.now.x shown.now.w)) }
{
    let Some(c) = c else {
        return Ok(None);
    };
    let Some(shown) = generating(table, logs, shown) else {
        return Ok(None);
    };
    let f = inverted(alloc, ring, aim)?;
    within_bound(&f);
    let a = Operand::Power {
        f,
        k: 1,
        rows: rows(table, c),
    };
    Ok(Some(Condition::Preimage {
        log: shown.log,
        a,
        b: Operand::Part(c),
        c: k,
        x: shown.x,
        w: shown.w,
    }))
}

/// The last colon adds nothing, where it, the one before and W are there.
pub(crate) fn settled(
    alloc: Global,
    table: &Table,
    block: &Block,
    t: u64,
    found: &[u32],
    w: u64,
) -> Result<Option<Condition>, AllocError>
    requires few { length (parts_in table.now) < 2 ^ 32 }
    ensures { let ps = parts_in table.now in (r : RingValue) (g : AimedGoal) (ls : List KeptLogValue)
        → AreBlockParts ps block.now → are_numbers ps found.now ≡ true
        → IfOk result (Finds r ps ls (settled_by
        (claims.colon_at r g (block_of ps block.now) ps (logs_of ps ls) t (parts_at ps found.now) (length found.now - 1))
        (claims.colon_at r g (block_of ps block.now) ps (logs_of ps ls) t (parts_at ps found.now) (length found.now)) (numbered ps w))) }
{
    let count = found.len() as u64;
    let Some(before) = colon_at(block, t, found, count.saturating_sub(1)) else {
        return Ok(None);
    };
    let Some(last) = colon_at(block, t, found, count) else {
        return Ok(None);
    };
    covered(alloc, table, last, Some(before), w)
}

/// The image of part k is not everything, where k and what is named are there.
pub(crate) fn is_proper(
    alloc: Global,
    table: &Table,
    logs: &[KeptLog],
    k: Option<u32>,
    shown: &Excluded,
) -> Result<Option<Condition>, AllocError>
    requires few_logs { length logs.now < 2 ^ 32 }
    requires k { IfSome k (λ n. is_number (parts_in table.now) n ≡ true) }
    ensures { let ps = parts_in table.now in (r : RingValue) (g : AimedGoal) (b : SheetBlock) → IfOk result (Finds r ps logs.now
        (not_everything r g b ps (logs_of ps logs.now) (option_map (part_at ps) k) shown.now.log shown.now.column shown.now.by.items)) }
{
    let Some(k) = k else {
        return Ok(None);
    };
    let rows = rows(table, k);
    outside(
        alloc,
        logs,
        Operand::Part(k),
        Operand::Unit(rows),
        rows,
        shown,
    )
}
