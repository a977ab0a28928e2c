// The lines of a chain of links, and whether a map is onto.
ghost use Rattle.std.specs.Prelude.{IfOk, List, length, true, ℕ, ◌<◌, ◌^◌, ◌≡◌};
ghost use Rattle.fm_problem.specs.declared.problem.Problem.{Problem as ProblemValue};
ghost use Rattle.fm_parts.specs.Replays.{are_numbers, is_number};
ghost use Rattle.fm_judge.specs.Places.{onto as onto_place, never_onto as never_place};
ghost use Rattle.fm_pres.specs.Tables.{part_at, parts_in};
ghost use Rattle.fm_lines.specs.declared.row.Row.TheVariants as rows;
ghost use Rattle.fm_conditions.specs.declared.kept_log.KeptLog.{KeptLog as KeptLogValue};
ghost use Rattle.fm_places.specs.declared.goal.Goal.{Goal as GoalValue};
ghost use Rattle.fm_places.specs.declared.place.Place.TheVariants as places;
ghost use Rattle.fm_claims.specs.Following.{Follows, FollowsIn, claim_in};
ghost use Rattle.fm_pres.specs.Blocks.{AreBlockParts, parts_at};

use crate::Claimed;
use crate::answering::{claim_if, with_number};
use crate::chained::{closed, falls_short, fills, links};
use crate::numbers::part;
use fm_conditions::KeptLog;
use fm_lines::Row;
use fm_places::{Goal, Place, after_link};
use fm_pres::{Block, Table};
use std::alloc::{AllocError, Global};

/// `link r+1`, where the answer says how many there are.
pub(crate) fn link(
    alloc: Global,
    table: &Table,
    logs: &[KeptLog],
    goal: &Goal,
    block: &Block,
    t: u64,
    phi: u32,
    found: Vec<u32>,
    row: &Row<'_>,
) -> Result<Claimed, AllocError>
    requires few { length (parts_in table.now) < 2 ^ 32 }
    requires few_logs { length logs.now < 2 ^ 32 }
    requires block { AreBlockParts (parts_in table.now) block.now }
    requires phi { is_number (parts_in table.now) phi ≡ true }
    requires found { are_numbers (parts_in table.now) found.items ≡ true }
    ensures { (q : ProblemValue) → IfOk result (FollowsIn q (parts_in table.now) logs.now goal.now block.now (places.Link t phi found) row.now) }
{
    let Row::Link { r, part: k, shown } = row else {
        return Ok(Claimed::Form);
    };
    if *r != found.len() as u64 + 1 {
        return Ok(Claimed::Form);
    }
    let Some(k) = part(table, *k) else {
        return Ok(Claimed::Reference);
    };
    let condition = links(alloc, table, logs, block, phi, &found, k, shown)?;
    let found = with_number(found, k)?;
    claim_if(alloc, condition, after_link(&goal.aim, t, phi, found))
}

/// `link r+1` or `closes r-1`, where the map is not onto.
pub(crate) fn open_link(
    alloc: Global,
    table: &Table,
    logs: &[KeptLog],
    block: &Block,
    t: u64,
    phi: u32,
    found: Vec<u32>,
    row: &Row<'_>,
) -> Result<Claimed, AllocError>
    requires few { length (parts_in table.now) < 2 ^ 32 }
    requires few_logs { length logs.now < 2 ^ 32 }
    requires block { AreBlockParts (parts_in table.now) block.now }
    requires phi { is_number (parts_in table.now) phi ≡ true }
    requires found { are_numbers (parts_in table.now) found.items ≡ true }
    ensures { (q : ProblemValue) (g : GoalValue) → IfOk result (FollowsIn q (parts_in table.now) logs.now g block.now (places.OpenLink t phi found) row.now) }
{
    match row {
        Row::Link { r, part: k, shown } => {
            if *r != found.len() as u64 + 1 {
                return Ok(Claimed::Form);
            }
            let Some(k) = part(table, *k) else {
                return Ok(Claimed::Reference);
            };
            let condition = links(alloc, table, logs, block, phi, &found, k, shown)?;
            let found = with_number(found, k)?;
            claim_if(alloc, condition, Place::OpenLink { t, phi, found })
        }
        Row::Closes { r, w } => closes(alloc, table, block, t, phi, found, *r, *w),
        _ => Ok(Claimed::Form),
    }
}

// `closes r`.
fn closes(
    alloc: Global,
    table: &Table,
    block: &Block,
    t: u64,
    phi: u32,
    found: Vec<u32>,
    r: u64,
    w: u64,
) -> Result<Claimed, AllocError>
    requires few { length (parts_in table.now) < 2 ^ 32 }
    requires block { AreBlockParts (parts_in table.now) block.now }
    requires phi { is_number (parts_in table.now) phi ≡ true }
    requires found { are_numbers (parts_in table.now) found.items ≡ true }
    ensures { (q : ProblemValue) (ls : List KeptLogValue) (g : GoalValue)
        → IfOk result (FollowsIn q (parts_in table.now) ls g block.now (places.OpenLink t phi found) (rows.Closes r w)) }
{
    if found.is_empty() {
        return Ok(Claimed::Form);
    }
    if r != found.len() as u64 - 1 {
        return Ok(Claimed::Form);
    }
    let condition = closed(alloc, table, block, phi, &found, w)?;
    claim_if(alloc, condition, Place::NeverOnto { t, phi, found })
}

/// `short r-1`, before `onto r`.
pub(crate) fn short(
    alloc: Global,
    table: &Table,
    logs: &[KeptLog],
    block: &Block,
    t: u64,
    phi: u32,
    found: Vec<u32>,
    row: &Row<'_>,
) -> Result<Claimed, AllocError>
    requires few_logs { length logs.now < 2 ^ 32 }
    requires block { AreBlockParts (parts_in table.now) block.now }
    requires phi { is_number (parts_in table.now) phi ≡ true }
    requires found { are_numbers (parts_in table.now) found.items ≡ true }
    ensures { (q : ProblemValue) (g : GoalValue) → IfOk result (FollowsIn q (parts_in table.now) logs.now g block.now (places.Short t phi found) row.now) }
{
    let Row::Short { r, shown } = row else {
        return Ok(Claimed::Form);
    };
    if *r != (found.len() as u64).saturating_sub(1) {
        return Ok(Claimed::Form);
    }
    let condition = falls_short(alloc, table, logs, block, phi, &found, shown)?;
    claim_if(alloc, condition, Place::Onto { t, phi, found })
}

/// `onto r`: the last link is everything.
pub(crate) fn onto(
    alloc: Global,
    table: &Table,
    block: &Block,
    phi: u32,
    found: &[u32],
    row: &Row<'_>,
) -> Result<Claimed, AllocError>
    requires few { length (parts_in table.now) < 2 ^ 32 }
    requires block { AreBlockParts (parts_in table.now) block.now }
    requires phi { is_number (parts_in table.now) phi ≡ true }
    requires found { are_numbers (parts_in table.now) found.now ≡ true }
    ensures { let ps = parts_in table.now in (q : ProblemValue) (ls : List KeptLogValue) (g : GoalValue) (t : ℕ) → IfOk result (Follows q.ring ps ls g.aim
        (claim_in q ps ls g block.now (onto_place t (part_at ps phi) (parts_at ps found.now)) row.now)) }
{
    let Row::Onto { r, w } = row else {
        return Ok(Claimed::Form);
    };
    if *r != found.len() as u64 {
        return Ok(Claimed::Form);
    }
    let condition = fills(alloc, table, block, phi, found, *w)?;
    claim_if(alloc, condition, Place::End)
}

/// `short r-1`, after `closes r-1`.
pub(crate) fn never_onto(
    alloc: Global,
    table: &Table,
    logs: &[KeptLog],
    block: &Block,
    phi: u32,
    found: &[u32],
    row: &Row<'_>,
) -> Result<Claimed, AllocError>
    requires few_logs { length logs.now < 2 ^ 32 }
    requires block { AreBlockParts (parts_in table.now) block.now }
    requires phi { is_number (parts_in table.now) phi ≡ true }
    requires found { are_numbers (parts_in table.now) found.now ≡ true }
    ensures { let ps = parts_in table.now in (q : ProblemValue) (g : GoalValue) (t : ℕ) → IfOk result (Follows q.ring ps logs.now g.aim
        (claim_in q ps logs.now g block.now (never_place t (part_at ps phi) (parts_at ps found.now)) row.now)) }
{
    let Row::Short { r, shown } = row else {
        return Ok(Claimed::Form);
    };
    if *r != (found.len() as u64).saturating_sub(1) {
        return Ok(Claimed::Form);
    }
    let condition = falls_short(alloc, table, logs, block, phi, found, shown)?;
    claim_if(alloc, condition, Place::End)
}
