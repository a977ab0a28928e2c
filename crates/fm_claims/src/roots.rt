// The lines of Ext and of the chain of a root.
ghost use Rattle.std.specs.Prelude.{IfOk, List, length, suc, true, ℕ, ◌<◌, ◌^◌, ◌≡◌};
ghost use Rattle.fm_problem.specs.declared.problem.Problem.{Problem as ProblemValue};
ghost use Rattle.fm_report.specs.Parts.{Part};
ghost use Rattle.fm_pres.specs.Tables.{parts_in};
ghost use Rattle.fm_lines.specs.declared.row.Row.TheVariants as rows;
ghost use Rattle.fm_conditions.specs.declared.kept_log.KeptLog.{KeptLog as KeptLogValue};
ghost use Rattle.fm_pres.specs.declared.block.Block.{Block as BlockValue};
ghost use Rattle.fm_places.specs.declared.goal.Goal.{Goal as GoalValue};
ghost use Rattle.fm_places.specs.declared.place.Place.TheVariants as program;
ghost use Rattle.fm_claims.specs.Following.{FollowsIn};
ghost use Rattle.fm_pres.specs.Blocks.{AreBlockParts};
ghost use Rattle.fm_places.specs.Meanings.{IsGoal};
ghost use Rattle.fm_poly.specs.declared.ring.Ring.{Ring as RingValue};
ghost use Rattle.fm_report.specs.Parts.{flip, times as times_of, twist};
ghost use Rattle.fm_parts.specs.Conditions.{equal};
ghost use Rattle.fm_parts.specs.Replays.{is_number};
ghost use Rattle.fm_pres.specs.Tables.{part_at};
ghost use Rattle.fm_conditions.specs.Meanings.{IsCondition, IsFormable, condition_of, logs_of};

use crate::Claimed;
use crate::numbers::{excluding, generating, next, nth, part};
use crate::told::{told_generators, told_moves, told_relations};
use crate::tools::{claim_agreeing, claim_one, codifferential, columns, flipped, times, twisted};
use fm_conditions::{Condition, KeptLog, Operand};
use fm_lines::{Excluded, Row};
use fm_places::{Goal, Place, after_morphism, after_stable};
use fm_pres::{Block, Table};
use fm_problem::Problem;
use std::alloc::{AllocError, Global};

/// `cocycles`.
pub(crate) fn cocycles(
    alloc: Global,
    table: &Table,
    logs: &[KeptLog],
    goal: &Goal,
    block: &Block,
    row: &Row<'_>,
) -> Result<Claimed, AllocError>
    requires few { length (parts_in table.now) < 2 ^ 32 }
    requires few_logs { length logs.now < 2 ^ 32 }
    requires block { AreBlockParts (parts_in table.now) block.now }
    ensures { (q : ProblemValue) → IfOk result (FollowsIn q (parts_in table.now) logs.now goal.now block.now program.Cocycles row.now) }
{
    let Row::Cocycles { shown, .. } = row else {
        return Ok(Claimed::Form);
    };
    let Some(d) = nth(&block.differentials, u64::from(goal.degree)) else {
        return Ok(Claimed::Reference);
    };
    let Some(z) = nth(&block.cocycles, 0) else {
        return Ok(Claimed::Reference);
    };
    let Some(s) = generating(table, logs, shown) else {
        return Ok(Claimed::Reference);
    };
    let a = flipped(alloc, Operand::Part(d))?;
    let condition = Condition::Kernel {
        log: s.log,
        a,
        c: z,
        x: s.x,
        w: s.w,
    };
    let count = u64::from(columns(table, z));
    let told = told_generators(&goal.aim);
    claim_agreeing(alloc, condition, told, count, Place::Relations)
}

/// `relations`.
pub(crate) fn relations(
    alloc: Global,
    table: &Table,
    logs: &[KeptLog],
    problem: &Problem,
    goal: &Goal,
    block: &Block,
    row: &Row<'_>,
) -> Result<Claimed, AllocError>
    requires few { length (parts_in table.now) < 2 ^ 32 }
    requires few_logs { length logs.now < 2 ^ 32 }
    requires block { AreBlockParts (parts_in table.now) block.now }
    ensures { IfOk result (FollowsIn problem.now (parts_in table.now) logs.now goal.now block.now program.Relations row.now) }
{
    let Row::Relations { shown, .. } = row else {
        return Ok(Claimed::Form);
    };
    let Some(z) = nth(&block.cocycles, 0) else {
        return Ok(Claimed::Reference);
    };
    let Some(d) = codifferential(alloc, problem.ring, &block.differentials, goal.degree)? else {
        return Ok(Claimed::Reference);
    };
    let Some(n) = nth(&block.kernels, 0) else {
        return Ok(Claimed::Reference);
    };
    let Some(s) = generating(table, logs, shown) else {
        return Ok(Claimed::Reference);
    };
    let condition = Condition::Preimage {
        log: s.log,
        a: Operand::Part(z),
        b: d,
        c: n,
        x: s.x,
        w: s.w,
    };
    let count = u64::from(columns(table, n));
    let told = told_relations(&goal.aim);
    claim_agreeing(alloc, condition, told, count, Place::Morphism)
}

/// `morphism`.
pub(crate) fn morphism(
    alloc: Global,
    goal: &Goal,
    block: &Block,
    row: &Row<'_>,
) -> Result<Claimed, AllocError>
    ensures { (q : ProblemValue) (ps : List Part) (ls : List KeptLogValue) → AreBlockParts ps block.now → IfOk result (FollowsIn q ps ls goal.now block.now program.Morphism row.now) }
{
    let Row::Morphism { .. } = row else {
        return Ok(Claimed::Form);
    };
    let Some(z) = nth(&block.cocycles, 0) else {
        return Ok(Claimed::Reference);
    };
    let Some(theta) = nth(&block.lift, u64::from(goal.degree)) else {
        return Ok(Claimed::Reference);
    };
    let Some(u) = nth(&block.morphism, 0) else {
        return Ok(Claimed::Reference);
    };
    let condition = moves(alloc, z, theta, u)?;
    claim_one(alloc, condition, after_morphism(&goal.aim))
}

// The transpose of theta times z is the twist of z times u.
fn moves(alloc: Global, z: u32, theta: u32, u: u32) -> Result<Condition, AllocError>
    ensures same { (r : RingValue) (ps : List Part) (ls : List KeptLogValue) → IfOk result (λ c. condition_of r ps (logs_of ps ls) c
        ≡ equal (times_of (flip (part_at ps theta)) (part_at ps z)) (times_of (twist (part_at ps z) 1) (part_at ps u))) }
    ensures testable { (r : RingValue) (ps : List Part) (ls : List KeptLogValue)
        → is_number ps z ≡ true → is_number ps theta ≡ true → is_number ps u ≡ true → IfOk result (IsCondition r ps ls) }
    ensures formable { (r : RingValue) (ps : List Part) → IfOk result (IsFormable r ps) }
{
    let theta = flipped(alloc, Operand::Part(theta))?;
    let left = times(alloc, theta, Operand::Part(z))?;
    let twist = twisted(alloc, Operand::Part(z), 1)?;
    let right = times(alloc, twist, Operand::Part(u))?;
    Ok(Condition::Equal(left, right))
}

/// `chain s+1`.
pub(crate) fn chain(
    alloc: Global,
    table: &Table,
    logs: &[KeptLog],
    block: &Block,
    s: u64,
    row: &Row<'_>,
) -> Result<Claimed, AllocError>
    requires few { length (parts_in table.now) < 2 ^ 32 }
    requires few_logs { length logs.now < 2 ^ 32 }
    requires block { AreBlockParts (parts_in table.now) block.now }
    ensures { (q : ProblemValue) (g : GoalValue) → IfOk result (FollowsIn q (parts_in table.now) logs.now g block.now (program.Chain s) row.now) }
{
    let Row::Chain {
        s: number,
        shown,
        ..
    } = row
    else {
        return Ok(Claimed::Form);
    };
    let after = next(s)?;
    if *number != after {
        return Ok(Claimed::Form);
    }
    let Some(u) = nth(&block.morphism, 0) else {
        return Ok(Claimed::Reference);
    };
    let Some(k) = nth(&block.kernels, s) else {
        return Ok(Claimed::Reference);
    };
    let Some(c) = nth(&block.kernels, after) else {
        return Ok(Claimed::Reference);
    };
    let Some(g) = generating(table, logs, shown) else {
        return Ok(Claimed::Reference);
    };
    let b = twisted(alloc, Operand::Part(k), 1)?;
    let condition = Condition::Preimage {
        log: g.log,
        a: Operand::Part(u),
        b,
        c,
        x: g.x,
        w: g.w,
    };
    claim_one(alloc, condition, Place::Turn(s))
}

/// `grows s` or `stable s`.
pub(crate) fn turn(
    alloc: Global,
    table: &Table,
    logs: &[KeptLog],
    goal: &Goal,
    block: &Block,
    s: u64,
    row: &Row<'_>,
) -> Result<Claimed, AllocError>
    requires few { length (parts_in table.now) < 2 ^ 32 }
    requires few_logs { length logs.now < 2 ^ 32 }
    requires block { AreBlockParts (parts_in table.now) block.now }
    ensures { (q : ProblemValue) → IfOk result (FollowsIn q (parts_in table.now) logs.now goal.now block.now (program.Turn s) row.now) }
{
    match row {
        Row::Grows { s: number, shown } => { grows(alloc, table, logs, block, s, *number, shown) }
        Row::Stable { t: number, w } => stable(alloc, table, goal, block, s, *number, *w),
        _ => Ok(Claimed::Form),
    }
}

// `grows`.
fn grows(
    alloc: Global,
    table: &Table,
    logs: &[KeptLog],
    block: &Block,
    s: u64,
    number: u64,
    shown: &Excluded,
) -> Result<Claimed, AllocError>
    requires few_logs { length logs.now < 2 ^ 32 }
    requires block { AreBlockParts (parts_in table.now) block.now }
    ensures { (q : ProblemValue) (g : GoalValue) → IfOk result (FollowsIn q (parts_in table.now) logs.now g block.now (program.Turn s) (rows.Grows number shown.now)) }
{
    if number != s {
        return Ok(Claimed::Form);
    }
    let after = next(s)?;
    let Some(k) = nth(&block.kernels, s) else {
        return Ok(Claimed::Reference);
    };
    let Some(c) = nth(&block.kernels, after) else {
        return Ok(Claimed::Reference);
    };
    let count = columns(table, c);
    let Some(x) = excluding(alloc, logs, count, shown.log, shown.column, &shown.by)? else {
        return Ok(Claimed::Reference);
    };
    let condition = Condition::Outside {
        log: x.log,
        e: 0,
        a: Operand::Part(k),
        v: Operand::Part(c),
        column: x.column,
        by: x.by,
    };
    claim_one(alloc, condition, Place::Chain(after))
}

// `stable`.
fn stable(
    alloc: Global,
    table: &Table,
    goal: &Goal,
    block: &Block,
    s: u64,
    number: u64,
    w: u64,
) -> Result<Claimed, AllocError>
    requires few { length (parts_in table.now) < 2 ^ 32 }
    requires block { AreBlockParts (parts_in table.now) block.now }
    ensures { (q : ProblemValue) (ls : List KeptLogValue) → IfOk result (FollowsIn q (parts_in table.now) ls goal.now block.now (program.Turn s) (rows.Stable number w)) }
{
    if number != s {
        return Ok(Claimed::Form);
    }
    let after = next(s)?;
    let Some(k) = nth(&block.kernels, s) else {
        return Ok(Claimed::Reference);
    };
    let Some(c) = nth(&block.kernels, after) else {
        return Ok(Claimed::Reference);
    };
    let Some(w) = part(table, w) else {
        return Ok(Claimed::Reference);
    };
    let product = times(alloc, Operand::Part(k), Operand::Part(w))?;
    let condition = Condition::Equal(Operand::Part(c), product);
    let next = after_stable(alloc, &goal.aim, s);
    claim_agreeing(alloc, condition, told_moves(&goal.aim), s, next)
}
