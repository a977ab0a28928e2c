// The lines on the limit and on classes.
ghost use Rattle.std.specs.Prelude.{IfOk, IfSome, List, [], length, option_map, suc, true, ◌<◌, ◌∷◌, ◌^◌, ◌≡◌};
ghost use Rattle.fm_problem.specs.declared.problem.Problem.{Problem as ProblemValue};
ghost use Rattle.fm_report.specs.Parts.{Part};
ghost use Rattle.fm_pres.specs.Tables.{parts_in};
ghost use Rattle.fm_conditions.specs.declared.kept_log.KeptLog.{KeptLog as KeptLogValue};
ghost use Rattle.fm_pres.specs.declared.block.Block.{Block as BlockValue};
ghost use Rattle.fm_places.specs.declared.goal.Goal.{Goal as GoalValue};
ghost use Rattle.fm_places.specs.declared.place.Place.TheVariants as program;
ghost use Rattle.fm_claims.specs.Following.{FollowsIn};
ghost use Rattle.fm_claims.specs.Kernels.{outside_kernel as claimed_outside};
ghost use Rattle.fm_pres.specs.Blocks.{AreBlockParts, block_of};
ghost use Rattle.fm_places.specs.Meanings.{IsGoal, goal_of};
ghost use Rattle.fm_poly.specs.declared.ring.Ring.{Ring as RingValue};
ghost use Rattle.fm_report.specs.Parts.{times as times_of, twist};
ghost use Rattle.fm_parts.specs.Conditions.{equal};
ghost use Rattle.fm_parts.specs.Replays.{is_number};
ghost use Rattle.fm_pres.specs.Tables.{part_at};
ghost use Rattle.fm_conditions.specs.Meanings.{CanBeFormed, IsCondition, IsFormable, IsOperand, condition_of, logs_of, operand_part};

use crate::Claimed;
use crate::numbers::{excluding, next, nth, part};
use crate::told::{class, stage};
use crate::tools::{claim_one, column, columns, rows as rows_of, times, twisted};
use fm_conditions::{Condition, KeptLog, Operand};
use fm_lines::Row;
use fm_places::{Goal, Place, after_coordinates};
use fm_pres::{Block, Table};
use fm_problem::Problem;
use std::alloc::{AllocError, Global};

/// `whole`.
pub(crate) fn whole(
    alloc: Global,
    table: &Table,
    block: &Block,
    t: u64,
    row: &Row<'_>,
) -> Result<Claimed, AllocError>
    requires few { length (parts_in table.now) < 2 ^ 32 }
    requires block { AreBlockParts (parts_in table.now) block.now }
    ensures { (q : ProblemValue) (ls : List KeptLogValue) (g : GoalValue) → IfOk result (FollowsIn q (parts_in table.now) ls g block.now (program.Whole t) row.now) }
{
    let Row::Whole { w } = row else {
        return Ok(Claimed::Form);
    };
    let Some(k) = nth(&block.kernels, t) else {
        return Ok(Claimed::Reference);
    };
    let Some(w) = part(table, *w) else {
        return Ok(Claimed::Reference);
    };
    let product = times(alloc, Operand::Part(k), Operand::Part(w))?;
    let condition = Condition::Equal(product, Operand::Unit(rows_of(table, k)));
    claim_one(alloc, condition, Place::End)
}

/// `proper`.
pub(crate) fn proper(
    alloc: Global,
    table: &Table,
    logs: &[KeptLog],
    block: &Block,
    t: u64,
    row: &Row<'_>,
) -> Result<Claimed, AllocError>
    requires few_logs { length logs.now < 2 ^ 32 }
    requires block { AreBlockParts (parts_in table.now) block.now }
    ensures { (q : ProblemValue) (g : GoalValue) → IfOk result (FollowsIn q (parts_in table.now) logs.now g block.now (program.Proper t) row.now) }
{
    let Row::Proper { shown } = row else {
        return Ok(Claimed::Form);
    };
    let Some(k) = nth(&block.kernels, t) else {
        return Ok(Claimed::Reference);
    };
    let count = rows_of(table, k);
    let Some(x) = excluding(alloc, logs, count, shown.log, shown.column, &shown.by)? else {
        return Ok(Claimed::Reference);
    };
    let condition = Condition::Outside {
        log: x.log,
        e: 0,
        a: Operand::Part(k),
        v: Operand::Unit(count),
        column: x.column,
        by: x.by,
    };
    claim_one(alloc, condition, Place::End)
}

/// `coordinates`.
pub(crate) fn coordinates(
    alloc: Global,
    table: &Table,
    problem: &Problem,
    goal: &Goal,
    block: &Block,
    t: u64,
    row: &Row<'_>,
) -> Result<Claimed, AllocError>
    requires few { length (parts_in table.now) < 2 ^ 32 }
    requires goal { IsGoal problem.now (parts_in table.now) goal.now }
    requires block { AreBlockParts (parts_in table.now) block.now }
    ensures { (ls : List KeptLogValue) → IfOk result (FollowsIn problem.now (parts_in table.now) ls goal.now block.now (program.Coordinates t) row.now) }
{
    let Row::Coordinates { part: number } = row else {
        return Ok(Claimed::Form);
    };
    let Some(w) = part(table, *number) else {
        return Ok(Claimed::Reference);
    };
    let Some(z) = nth(&block.cocycles, 0) else {
        return Ok(Claimed::Reference);
    };
    let class = column(alloc, problem.ring, class(&goal.aim))?;
    let condition = combines(alloc, z, stage(&goal.aim), w, class)?;
    claim_one(alloc, condition, after_coordinates(&goal.aim, w, t))
}

// The twist of z times w is v.
fn combines(alloc: Global, z: u32, e: u8, w: u32, v: Operand) -> Result<Condition, AllocError>
    ensures same { (r : RingValue) (ps : List Part) (ls : List KeptLogValue) → IfOk result (λ c. condition_of r ps (logs_of ps ls) c
        ≡ equal (times_of (twist (part_at ps z) e) (part_at ps w)) (operand_part r ps v)) }
    ensures testable { (r : RingValue) (ps : List Part) (ls : List KeptLogValue)
        → is_number ps z ≡ true → is_number ps w ≡ true → IsOperand r ps v → IfOk result (IsCondition r ps ls) }
    ensures formable { (r : RingValue) (ps : List Part) → CanBeFormed r ps v → IfOk result (IsFormable r ps) }
{
    let twist = twisted(alloc, Operand::Part(z), e)?;
    let product = times(alloc, twist, Operand::Part(w))?;
    Ok(Condition::Equal(product, v))
}

/// `lives k`, which has to come before the repeat.
pub(crate) fn lives(
    alloc: Global,
    table: &Table,
    logs: &[KeptLog],
    goal: &Goal,
    block: &Block,
    w: u32,
    t: u64,
    k: u64,
    row: &Row<'_>,
) -> Result<Claimed, AllocError>
    requires few_logs { length logs.now < 2 ^ 32 }
    requires block { AreBlockParts (parts_in table.now) block.now }
    requires w { is_number (parts_in table.now) w ≡ true }
    ensures { (q : ProblemValue) → IfOk result (FollowsIn q (parts_in table.now) logs.now goal.now block.now (program.Lives w t k) row.now) }
{
    let Row::Lives { k: number, log, by } = row else {
        return Ok(Claimed::Form);
    };
    if *number != k {
        return Ok(Claimed::Form);
    }
    let after = next(k)?;
    let next = Place::Dies { w, t, m: after };
    if k < t {
        let Some(condition) = outside_kernel(alloc, table, logs, goal, block, w, k, *log, by)?
        else {
            return Ok(Claimed::Reference);
        };
        return claim_one(alloc, condition, next);
    }
    let Some(_condition) = outside_kernel(alloc, table, logs, goal, block, w, t, *log, by)? else {
        return Ok(Claimed::Reference);
    };
    claim_one(alloc, Condition::Never, next)
}

/// w is never in the image of a kernel.
pub(crate) fn lives_on(
    alloc: Global,
    table: &Table,
    logs: &[KeptLog],
    goal: &Goal,
    block: &Block,
    w: u32,
    t: u64,
    row: &Row<'_>,
) -> Result<Claimed, AllocError>
    requires few_logs { length logs.now < 2 ^ 32 }
    requires block { AreBlockParts (parts_in table.now) block.now }
    requires w { is_number (parts_in table.now) w ≡ true }
    ensures { (q : ProblemValue) → IfOk result (FollowsIn q (parts_in table.now) logs.now goal.now block.now (program.LivesOn w t) row.now) }
{
    let Row::Lives { k: number, log, by } = row else {
        return Ok(Claimed::Form);
    };
    if *number != t {
        return Ok(Claimed::Form);
    }
    let Some(condition) = outside_kernel(alloc, table, logs, goal, block, w, t, *log, by)? else {
        return Ok(Claimed::Reference);
    };
    claim_one(alloc, condition, Place::End)
}

// The column w lies outside of the image of K_s, twisted as often as the stage says.
fn outside_kernel(
    alloc: Global,
    table: &Table,
    logs: &[KeptLog],
    goal: &Goal,
    block: &Block,
    w: u32,
    s: u64,
    log: u64,
    by: &[u64],
) -> Result<Option<Condition>, AllocError>
    requires few_logs { length logs.now < 2 ^ 32 }
    requires block { AreBlockParts (parts_in table.now) block.now }
    requires w { is_number (parts_in table.now) w ≡ true }
    ensures same { let ps = parts_in table.now in (q : ProblemValue) → IfOk result (λ o.
        claimed_outside q.ring (goal_of q ps goal.now) (block_of ps block.now) ps (logs_of ps logs.now) (part_at ps w) s log by.now
        ≡ option_map (λ c. condition_of q.ring ps (logs_of ps logs.now) c ∷ []) o) }
    ensures testable { (r : RingValue) → IfOk result (λ o. IfSome o (IsCondition r (parts_in table.now) logs.now)) }
    ensures formable { (r : RingValue) → IfOk result (λ o. IfSome o (IsFormable r (parts_in table.now))) }
{
    let Some(k) = nth(&block.kernels, s) else {
        return Ok(None);
    };
    let Some(x) = excluding(alloc, logs, columns(table, w), log, 1, by)? else {
        return Ok(None);
    };
    Ok(Some(Condition::Outside {
        log: x.log,
        e: stage(&goal.aim),
        a: Operand::Part(k),
        v: Operand::Part(w),
        column: x.column,
        by: x.by,
    }))
}

/// `dies m`.
pub(crate) fn dies(
    alloc: Global,
    table: &Table,
    goal: &Goal,
    block: &Block,
    w: u32,
    t: u64,
    m: u64,
    row: &Row<'_>,
) -> Result<Claimed, AllocError>
    requires few { length (parts_in table.now) < 2 ^ 32 }
    requires block { AreBlockParts (parts_in table.now) block.now }
    requires w { is_number (parts_in table.now) w ≡ true }
    ensures { (q : ProblemValue) (ls : List KeptLogValue) → IfOk result (FollowsIn q (parts_in table.now) ls goal.now block.now (program.Dies w t m) row.now) }
{
    let Row::Dies { m: number, w: x } = row else {
        return Ok(Claimed::Form);
    };
    if *number != m {
        return Ok(Claimed::Form);
    }
    let Some(k) = nth(&block.kernels, m) else {
        return Ok(Claimed::Reference);
    };
    let Some(x) = part(table, *x) else {
        return Ok(Claimed::Reference);
    };
    let twist = twisted(alloc, Operand::Part(k), stage(&goal.aim))?;
    let product = times(alloc, twist, Operand::Part(x))?;
    claim_one(
        alloc,
        Condition::Equal(Operand::Part(w), product),
        Place::End,
    )
}
