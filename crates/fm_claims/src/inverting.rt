// The lines on inverting a polynomial: the power of it that annihilates, and the colons by it.
ghost use Rattle.std.specs.Prelude.{IfOk, List, length, true, ℕ, ◌<◌, ◌^◌, ◌≡◌};
ghost use Rattle.fm_problem.specs.declared.problem.Problem.{Problem as ProblemValue};
ghost use Rattle.fm_parts.specs.Replays.{are_numbers};
ghost use Rattle.fm_judge.specs.Places.{proper_colon as proper_place};
ghost use Rattle.fm_pres.specs.Tables.{parts_in};
ghost use Rattle.fm_lines.specs.declared.row.Row.TheVariants as rows;
ghost use Rattle.fm_conditions.specs.declared.kept_log.KeptLog.{KeptLog as KeptLogValue};
ghost use Rattle.fm_places.specs.declared.goal.Goal.{Goal as GoalValue};
ghost use Rattle.fm_places.specs.declared.place.Place.TheVariants as places;
ghost use Rattle.fm_claims.specs.Following.{Follows, FollowsIn, claim_in};
ghost use Rattle.fm_pres.specs.Blocks.{AreBlockParts, parts_at};
ghost use Rattle.fm_places.specs.Meanings.{IsAim};

use crate::Claimed;
use crate::answering::{claim_all_if, claim_if, with_number};
use crate::colons::{colon_at, colon_sent, is_proper, power_covered, power_outside, settled};
use crate::numbers::{nth, part};
use fm_conditions::KeptLog;
use fm_lines::Row;
use fm_places::{Goal, Place, after_power};
use fm_pres::{Block, Table};
use fm_problem::Problem;
use std::alloc::{AllocError, Global};

/// `power`: the power of f sends everything into K_t.
pub(crate) fn power(
    alloc: Global,
    table: &Table,
    problem: &Problem,
    goal: &Goal,
    block: &Block,
    t: u64,
    k: u64,
    row: &Row<'_>,
) -> Result<Claimed, AllocError>
    requires few { length (parts_in table.now) < 2 ^ 32 }
    requires aim { IsAim problem.now (parts_in table.now) goal.now.aim }
    requires block { AreBlockParts (parts_in table.now) block.now }
    ensures { (ls : List KeptLogValue) → IfOk result (FollowsIn problem.now (parts_in table.now) ls goal.now block.now (places.Power t k) row.now) }
{
    let Row::Power { w } = row else {
        return Ok(Claimed::Form);
    };
    let conditions = power_covered(
        alloc,
        table,
        problem.ring,
        &goal.aim,
        nth(&block.kernels, t),
        k,
        *w,
    )?;
    Ok(claim_all_if(conditions, after_power(t, k)))
}

/// `least`: the power of f does not, and can be formed.
pub(crate) fn least(
    alloc: Global,
    table: &Table,
    logs: &[KeptLog],
    problem: &Problem,
    goal: &Goal,
    block: &Block,
    t: u64,
    k: u64,
    row: &Row<'_>,
) -> Result<Claimed, AllocError>
    requires few_logs { length logs.now < 2 ^ 32 }
    requires aim { IsAim problem.now (parts_in table.now) goal.now.aim }
    requires block { AreBlockParts (parts_in table.now) block.now }
    ensures { IfOk result (FollowsIn problem.now (parts_in table.now) logs.now goal.now block.now (places.Least t k) row.now) }
{
    let Row::Least { shown } = row else {
        return Ok(Claimed::Form);
    };
    let conditions = power_outside(
        alloc,
        table,
        logs,
        problem.ring,
        &goal.aim,
        nth(&block.kernels, t),
        k,
        shown,
    )?;
    Ok(claim_all_if(conditions, Place::End))
}

/// `colon j+1` or `settles j`.
pub(crate) fn colon(
    alloc: Global,
    table: &Table,
    logs: &[KeptLog],
    problem: &Problem,
    goal: &Goal,
    block: &Block,
    t: u64,
    found: Vec<u32>,
    row: &Row<'_>,
) -> Result<Claimed, AllocError>
    requires few { length (parts_in table.now) < 2 ^ 32 }
    requires few_logs { length logs.now < 2 ^ 32 }
    requires aim { IsAim problem.now (parts_in table.now) goal.now.aim }
    requires block { AreBlockParts (parts_in table.now) block.now }
    requires found { are_numbers (parts_in table.now) found.items ≡ true }
    ensures { IfOk result (FollowsIn problem.now (parts_in table.now) logs.now goal.now block.now (places.Colon t found) row.now) }
{
    match row {
        Row::Colon { j, part: k, shown } => {
            if *j != found.len() as u64 + 1 {
                return Ok(Claimed::Form);
            }
            let Some(k) = part(table, *k) else {
                return Ok(Claimed::Reference);
            };
            let last = colon_at(block, t, &found, found.len() as u64);
            let condition = colon_sent(
                alloc,
                table,
                logs,
                problem.ring,
                &goal.aim,
                last,
                k,
                shown,
            )?;
            let found = with_number(found, k)?;
            claim_if(alloc, condition, Place::Colon { t, found })
        }
        Row::Settles { j, w } => settles(alloc, table, block, t, found, *j, *w),
        _ => Ok(Claimed::Form),
    }
}

// `settles j`.
fn settles(
    alloc: Global,
    table: &Table,
    block: &Block,
    t: u64,
    found: Vec<u32>,
    j: u64,
    w: u64,
) -> Result<Claimed, AllocError>
    requires few { length (parts_in table.now) < 2 ^ 32 }
    requires block { AreBlockParts (parts_in table.now) block.now }
    requires found { are_numbers (parts_in table.now) found.items ≡ true }
    ensures { (q : ProblemValue) (ls : List KeptLogValue) (g : GoalValue)
        → IfOk result (FollowsIn q (parts_in table.now) ls g block.now (places.Colon t found) (rows.Settles j w)) }
{
    if found.is_empty() {
        return Ok(Claimed::Form);
    }
    if j != found.len() as u64 {
        return Ok(Claimed::Form);
    }
    let condition = settled(alloc, table, block, t, &found, w)?;
    claim_if(alloc, condition, Place::ProperColon { t, found })
}

/// `proper`: the last colon but one is not everything.
pub(crate) fn proper_colon(
    alloc: Global,
    table: &Table,
    logs: &[KeptLog],
    block: &Block,
    t: u64,
    found: &[u32],
    row: &Row<'_>,
) -> Result<Claimed, AllocError>
    requires few_logs { length logs.now < 2 ^ 32 }
    requires block { AreBlockParts (parts_in table.now) block.now }
    requires found { are_numbers (parts_in table.now) found.now ≡ true }
    ensures { let ps = parts_in table.now in (q : ProblemValue) (g : GoalValue) → IfOk result (Follows q.ring ps logs.now g.aim
        (claim_in q ps logs.now g block.now (proper_place t (parts_at ps found.now)) row.now)) }
{
    let Row::Proper { shown } = row else {
        return Ok(Claimed::Form);
    };
    let before = colon_at(block, t, found, (found.len() as u64).saturating_sub(1));
    let condition = is_proper(alloc, table, logs, before, shown)?;
    claim_if(alloc, condition, Place::End)
}
