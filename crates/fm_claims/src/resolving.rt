// The lines of a resolution and of the lift of the identity.
ghost use Rattle.std.specs.Prelude.{IfOk, List, length, suc, true, ℕ, ◌<◌, ◌^◌, ◌≡◌};
ghost use Rattle.fm_problem.specs.declared.problem.Problem.{Problem as ProblemValue};
ghost use Rattle.fm_report.specs.Parts.{Part};
ghost use Rattle.fm_pres.specs.Tables.{parts_in};
ghost use Rattle.fm_lines.specs.declared.row.Row.TheVariants as rows;
ghost use Rattle.fm_conditions.specs.declared.kept_log.KeptLog.{KeptLog as KeptLogValue};
ghost use Rattle.fm_places.specs.declared.place.Place.TheVariants as program;
ghost use Rattle.fm_claims.specs.Following.{FollowsIn};
ghost use Rattle.fm_pres.specs.Blocks.{AreBlockParts};
ghost use Rattle.fm_places.specs.Meanings.{IsGoal};
ghost use Rattle.fm_poly.specs.declared.ring.Ring.{Ring as RingValue};
ghost use Rattle.fm_report.specs.Parts.{times as times_of, twist};
ghost use Rattle.fm_parts.specs.Conditions.{equal};
ghost use Rattle.fm_parts.specs.Replays.{is_number};
ghost use Rattle.fm_pres.specs.Tables.{part_at};
ghost use Rattle.fm_conditions.specs.Meanings.{IsCondition, IsFormable, condition_of, logs_of};

use crate::Claimed;
use crate::numbers::{generating, next, nth};
use crate::problems::generators;
use crate::told::told_rank;
use crate::tools::{
    claim_agreeing, claim_all, claim_one, columns, push_agreeing, row as row_of, times, twisted,
    with_agreeing,
};
use fm_conditions::{Condition, KeptLog, Operand};
use fm_lines::Row;
use fm_places::{Goal, after_differential, after_exact, after_lift};
use fm_pres::{Block, Table};
use fm_problem::Problem;
use std::alloc::{AllocError, Global};

/// `d j+1`.
pub(crate) fn differential(
    alloc: Global,
    table: &Table,
    problem: &Problem,
    goal: &Goal,
    block: &Block,
    j: u64,
    row: &Row<'_>,
) -> Result<Claimed, AllocError>
    requires goal { IsGoal problem.now (parts_in table.now) goal.now }
    requires block { AreBlockParts (parts_in table.now) block.now }
    ensures { (ls : List KeptLogValue) → IfOk result (FollowsIn problem.now (parts_in table.now) ls goal.now block.now (program.Differential j) row.now) }
{
    let Row::D { j: number, .. } = row else {
        return Ok(Claimed::Form);
    };
    let after = next(j)?;
    if *number != after {
        return Ok(Claimed::Form);
    }
    if j == 0 {
        return first_differential(alloc, table, problem, goal, block);
    }
    later_differential(alloc, table, goal, block, j - 1, j, after)
}

// d_1 is the row of generators of the ideal.
fn first_differential(
    alloc: Global,
    table: &Table,
    problem: &Problem,
    goal: &Goal,
    block: &Block,
) -> Result<Claimed, AllocError>
    requires goal { IsGoal problem.now (parts_in table.now) goal.now }
    requires block { AreBlockParts (parts_in table.now) block.now }
    ensures { (ls : List KeptLogValue) (k : ℕ) → IfOk result (FollowsIn problem.now (parts_in table.now) ls goal.now block.now (program.Differential 0) (rows.D 1 k)) }
{
    let Some(d) = nth(&block.differentials, 0) else {
        return Ok(Claimed::Reference);
    };
    let generators = row_of(alloc, problem.ring, generators(problem, goal.ideal))?;
    let equation = Condition::Equal(Operand::Part(d), generators);
    let mut conditions = with_agreeing(alloc, equation, told_rank(&goal.aim, 0), 1)?;
    let rank = u64::from(columns(table, d));
    push_agreeing(told_rank(&goal.aim, 1), rank, &mut conditions)?;
    Ok(claim_all(conditions, after_differential(goal, 1)))
}

// d_(j+1), where i + 1 is j and j + 1 is `after`.
fn later_differential(
    alloc: Global,
    table: &Table,
    goal: &Goal,
    block: &Block,
    i: u64,
    j: u64,
    after: u64,
) -> Result<Claimed, AllocError>
    requires block { AreBlockParts (parts_in table.now) block.now }
    requires j { j ≡ suc i }
    requires after { after ≡ suc j }
    ensures { (q : ProblemValue) (ls : List KeptLogValue) (k : ℕ) → IfOk result (FollowsIn q (parts_in table.now) ls goal.now block.now (program.Differential j) (rows.D after k)) }
{
    let Some(a) = nth(&block.differentials, i) else {
        return Ok(Claimed::Reference);
    };
    let Some(b) = nth(&block.differentials, j) else {
        return Ok(Claimed::Reference);
    };
    let rank = u64::from(columns(table, b));
    let told = told_rank(&goal.aim, after);
    let next = after_differential(goal, after);
    claim_agreeing(alloc, Condition::Follows { a, b }, told, rank, next)
}

/// `exact j+1`.
pub(crate) fn exactness(
    alloc: Global,
    table: &Table,
    logs: &[KeptLog],
    goal: &Goal,
    block: &Block,
    j: u64,
    row: &Row<'_>,
) -> Result<Claimed, AllocError>
    requires few { length (parts_in table.now) < 2 ^ 32 }
    requires few_logs { length logs.now < 2 ^ 32 }
    requires block { AreBlockParts (parts_in table.now) block.now }
    ensures { (q : ProblemValue) → IfOk result (FollowsIn q (parts_in table.now) logs.now goal.now block.now (program.Exactness j) row.now) }
{
    let Row::Exact { j: number, shown } = row else {
        return Ok(Claimed::Form);
    };
    let after = next(j)?;
    if *number != after {
        return Ok(Claimed::Form);
    }
    let Some(a) = nth(&block.differentials, j) else {
        return Ok(Claimed::Reference);
    };
    let Some(c) = nth(&block.differentials, after) else {
        return Ok(Claimed::Reference);
    };
    let Some(s) = generating(table, logs, shown) else {
        return Ok(Claimed::Reference);
    };
    let condition = Condition::Kernel {
        log: s.log,
        a: Operand::Part(a),
        c,
        x: s.x,
        w: s.w,
    };
    claim_one(alloc, condition, after_exact(goal, after))
}

/// `theta j`.
pub(crate) fn lift(
    alloc: Global,
    goal: &Goal,
    block: &Block,
    j: u64,
    row: &Row<'_>,
) -> Result<Claimed, AllocError>
    ensures { (q : ProblemValue) (ps : List Part) (ls : List KeptLogValue) → AreBlockParts ps block.now → IfOk result (FollowsIn q ps ls goal.now block.now (program.Lift j) row.now) }
{
    let Row::Theta { j: number, .. } = row else {
        return Ok(Claimed::Form);
    };
    if *number != j {
        return Ok(Claimed::Form);
    }
    let after = next(j)?;
    if j == 0 {
        return first_lift(alloc, goal, block);
    }
    later_lift(alloc, goal, block, j - 1, j, after)
}

// theta_0 is 1.
fn first_lift(alloc: Global, goal: &Goal, block: &Block) -> Result<Claimed, AllocError>
    ensures { (q : ProblemValue) (ps : List Part) (ls : List KeptLogValue) (k : ℕ) → AreBlockParts ps block.now → IfOk result (FollowsIn q ps ls goal.now block.now (program.Lift 0) (rows.Theta 0 k)) }
{
    let Some(theta) = nth(&block.lift, 0) else {
        return Ok(Claimed::Reference);
    };
    let condition = Condition::Equal(Operand::Part(theta), Operand::Unit(1));
    claim_one(alloc, condition, after_lift(goal, 1))
}

// theta_j, where i + 1 is j and j + 1 is `after`.
fn later_lift(
    alloc: Global,
    goal: &Goal,
    block: &Block,
    i: u64,
    j: u64,
    after: u64,
) -> Result<Claimed, AllocError>
    requires j { j ≡ suc i }
    requires after { after ≡ suc j }
    ensures { (q : ProblemValue) (ps : List Part) (ls : List KeptLogValue) (k : ℕ) → AreBlockParts ps block.now → IfOk result (FollowsIn q ps ls goal.now block.now (program.Lift j) (rows.Theta j k)) }
{
    let Some(d) = nth(&block.differentials, i) else {
        return Ok(Claimed::Reference);
    };
    let Some(before) = nth(&block.lift, i) else {
        return Ok(Claimed::Reference);
    };
    let Some(theta) = nth(&block.lift, j) else {
        return Ok(Claimed::Reference);
    };
    let condition = lifts(alloc, d, before, theta)?;
    claim_one(alloc, condition, after_lift(goal, after))
}

// d * theta is the part before theta times the twist of d.
fn lifts(alloc: Global, d: u32, before: u32, theta: u32) -> Result<Condition, AllocError>
    ensures same { (r : RingValue) (ps : List Part) (ls : List KeptLogValue) → IfOk result (λ c. condition_of r ps (logs_of ps ls) c
        ≡ equal (times_of (part_at ps d) (part_at ps theta)) (times_of (part_at ps before) (twist (part_at ps d) 1))) }
    ensures testable { (r : RingValue) (ps : List Part) (ls : List KeptLogValue)
        → is_number ps d ≡ true → is_number ps before ≡ true → is_number ps theta ≡ true → IfOk result (IsCondition r ps ls) }
    ensures formable { (r : RingValue) (ps : List Part) → IfOk result (IsFormable r ps) }
{
    let left = times(alloc, Operand::Part(d), Operand::Part(theta))?;
    let twist = twisted(alloc, Operand::Part(d), 1)?;
    let right = times(alloc, Operand::Part(before), twist)?;
    Ok(Condition::Equal(left, right))
}
