// The lines on a map: the lift of the identity, Phi, and whether the map is zero and one to one.
ghost use Rattle.std.specs.Prelude.{IfOk, IfSome, List, length, option_map, suc, true, ◌<◌, ◌^◌, ◌≡◌};
ghost use Rattle.fm_poly.specs.declared.ring.Ring.{Ring as RingValue};
ghost use Rattle.fm_problem.specs.declared.problem.Problem.{Problem as ProblemValue};
ghost use Rattle.fm_report.specs.Parts.{Part};
ghost use Rattle.fm_report.specs.Sheets.{Block as SheetBlock, numbered};
ghost use Rattle.fm_parts.specs.Replays.{are_numbers, is_number};
ghost use Rattle.fm_judge.specs.Claims as claims;
ghost use Rattle.fm_judge.specs.Goals.{Goal as AimedGoal};
ghost use Rattle.fm_judge.specs.Places.{phi as phi_place};
ghost use Rattle.fm_pres.specs.Tables.{part_at, parts_in};
ghost use Rattle.fm_conditions.specs.Meanings.{logs_of};
ghost use Rattle.fm_conditions.specs.declared.kept_log.KeptLog.{KeptLog as KeptLogValue};
ghost use Rattle.fm_pres.specs.declared.block.Block.{Block as BlockValue};
ghost use Rattle.fm_places.specs.declared.goal.Goal.{Goal as GoalValue};
ghost use Rattle.fm_places.specs.declared.place.Place.TheVariants as places;
ghost use Rattle.fm_claims.specs.Following.{Follows, FollowsIn, claim_in};
ghost use Rattle.fm_claims.specs.Named.{Finds, induced_by, outside_of, sent_into_by};
ghost use Rattle.fm_pres.specs.Blocks.{AreBlockParts, block_of, parts_at};
ghost use Rattle.fm_places.specs.Meanings.{IsAim, goal_of};

use crate::Claimed;
use crate::answering::{claim_if, covered, outside, with_number};
use crate::numbers::{generating, nth, part};
use crate::source::{source_cocycles, source_differential, source_kernel};
use crate::tools::{columns, flipped, times};
use fm_conditions::{Condition, KeptLog, Operand};
use fm_lines::{Excluded, Generated, Row};
use fm_places::{Goal, Place, after_fibre, after_lambda, after_link, after_phi};
use fm_pres::{Block, Table};
use std::alloc::{AllocError, Global};

/// `lambda j`.
pub(crate) fn lambda(
    alloc: Global,
    table: &Table,
    goal: &Goal,
    block: &Block,
    t: u64,
    identity: Vec<u32>,
    row: &Row<'_>,
) -> Result<Claimed, AllocError>
    requires few { length (parts_in table.now) < 2 ^ 32 }
    requires block { AreBlockParts (parts_in table.now) block.now }
    requires identity { are_numbers (parts_in table.now) identity.items ≡ true }
    ensures { (q : ProblemValue) (ls : List KeptLogValue) → IsAim q (parts_in table.now) goal.now.aim
        → IfOk result (FollowsIn q (parts_in table.now) ls goal.now block.now (places.Lambda t identity) row.now) }
{
    let Row::Lambda { j, part: k } = row else {
        return Ok(Claimed::Form);
    };
    if *j != identity.len() as u64 {
        return Ok(Claimed::Form);
    }
    let Some(k) = part(table, *k) else {
        return Ok(Claimed::Reference);
    };
    let condition = lambda_lifts(alloc, goal, block, &identity, k)?;
    let identity = with_number(identity, k)?;
    claim_if(alloc, condition, after_lambda(goal, t, identity))
}

// Part k continues the lift of the identity.
fn lambda_lifts(
    alloc: Global,
    goal: &Goal,
    block: &Block,
    identity: &[u32],
    k: u32,
) -> Result<Option<Condition>, AllocError>
    ensures { (q : ProblemValue) (ps : List Part) (ls : List KeptLogValue)
        → IsAim q ps goal.now.aim → AreBlockParts ps block.now → are_numbers ps identity.now ≡ true → is_number ps k ≡ true
        → IfOk result (Finds q.ring ps ls
        (claims.on_lambda q.ring (goal_of q ps goal.now) (block_of ps block.now) ps (logs_of ps ls) (parts_at ps identity.now) (part_at ps k))) }
{
    if identity.is_empty() {
        return Ok(Some(Condition::Equal(Operand::Part(k), Operand::Unit(1))));
    }
    let i = identity.len() as u64 - 1;
    let Some(d) = source_differential(&goal.aim, i) else {
        return Ok(None);
    };
    let Some(before) = nth(identity, i) else {
        return Ok(None);
    };
    let Some(e) = nth(&block.differentials, i) else {
        return Ok(None);
    };
    let left = times(alloc, Operand::Part(d), Operand::Part(k))?;
    let right = times(alloc, Operand::Part(before), Operand::Part(e))?;
    Ok(Some(Condition::Equal(left, right)))
}

/// `phi`.
pub(crate) fn phi(
    alloc: Global,
    table: &Table,
    goal: &Goal,
    block: &Block,
    t: u64,
    identity: &[u32],
    row: &Row<'_>,
) -> Result<Claimed, AllocError>
    requires few { length (parts_in table.now) < 2 ^ 32 }
    requires block { AreBlockParts (parts_in table.now) block.now }
    requires identity { are_numbers (parts_in table.now) identity.now ≡ true }
    ensures { let ps = parts_in table.now in (q : ProblemValue) (ls : List KeptLogValue) → IsAim q ps goal.now.aim
        → IfOk result (Follows q.ring ps ls goal.now.aim (claim_in q ps ls goal.now block.now (phi_place t (parts_at ps identity.now)) row.now)) }
{
    let Row::Phi { part: k } = row else {
        return Ok(Claimed::Form);
    };
    let Some(k) = part(table, *k) else {
        return Ok(Claimed::Reference);
    };
    let condition = phi_induces(alloc, goal, block, identity, k)?;
    claim_if(alloc, condition, after_phi(&goal.aim, t, k))
}

// The transpose of the last lift of the identity, on Z of the source, is Z of the target times part k.
fn phi_induces(
    alloc: Global,
    goal: &Goal,
    block: &Block,
    identity: &[u32],
    k: u32,
) -> Result<Option<Condition>, AllocError>
    ensures { (q : ProblemValue) (ps : List Part) (ls : List KeptLogValue)
        → IsAim q ps goal.now.aim → AreBlockParts ps block.now → are_numbers ps identity.now ≡ true → is_number ps k ≡ true
        → IfOk result (Finds q.ring ps ls (induced_by
        (claims.source_cocycles q.ring (goal_of q ps goal.now) (block_of ps block.now) ps (logs_of ps ls))
        (numbered (parts_at ps identity.now) (suc goal.now.degree)) (numbered (parts_at ps block.now.cocycles.items) 1) (part_at ps k))) }
{
    let Some(z) = source_cocycles(&goal.aim) else {
        return Ok(None);
    };
    let Some(last) = nth(identity, u64::from(goal.degree)) else {
        return Ok(None);
    };
    let Some(y) = nth(&block.cocycles, 0) else {
        return Ok(None);
    };
    let dual = flipped(alloc, Operand::Part(last))?;
    let left = times(alloc, dual, Operand::Part(z))?;
    let right = times(alloc, Operand::Part(y), Operand::Part(k))?;
    Ok(Some(Condition::Equal(left, right)))
}

/// `null`: the map is zero.
pub(crate) fn null(
    alloc: Global,
    table: &Table,
    block: &Block,
    t: u64,
    phi: u32,
    row: &Row<'_>,
) -> Result<Claimed, AllocError>
    requires few { length (parts_in table.now) < 2 ^ 32 }
    requires block { AreBlockParts (parts_in table.now) block.now }
    requires phi { is_number (parts_in table.now) phi ≡ true }
    ensures { (q : ProblemValue) (ls : List KeptLogValue) (g : GoalValue)
        → IfOk result (FollowsIn q (parts_in table.now) ls g block.now (places.Null t phi) row.now) }
{
    let Row::Null { w } = row else {
        return Ok(Claimed::Form);
    };
    let condition = covered(alloc, table, phi, nth(&block.kernels, t), *w)?;
    claim_if(alloc, condition, Place::Fibre { t, phi })
}

/// `nonnull`: the map is not zero.
pub(crate) fn non_null(
    alloc: Global,
    table: &Table,
    logs: &[KeptLog],
    block: &Block,
    t: u64,
    phi: u32,
    row: &Row<'_>,
) -> Result<Claimed, AllocError>
    requires few_logs { length logs.now < 2 ^ 32 }
    requires block { AreBlockParts (parts_in table.now) block.now }
    requires phi { is_number (parts_in table.now) phi ≡ true }
    ensures { (q : ProblemValue) (g : GoalValue) → IfOk result (FollowsIn q (parts_in table.now) logs.now g block.now (places.NonNull t phi) row.now) }
{
    let Row::NonNull { shown } = row else {
        return Ok(Claimed::Form);
    };
    let condition = outside_part(alloc, table, logs, nth(&block.kernels, t), phi, shown)?;
    claim_if(alloc, condition, Place::Fibre { t, phi })
}

// A column of part v lies outside of the image of part k, where k, the log, the column and the members are there.
fn outside_part(
    alloc: Global,
    table: &Table,
    logs: &[KeptLog],
    k: Option<u32>,
    v: u32,
    shown: &Excluded,
) -> Result<Option<Condition>, AllocError>
    requires few_logs { length logs.now < 2 ^ 32 }
    requires v { is_number (parts_in table.now) v ≡ true }
    ensures { let ps = parts_in table.now in (r : RingValue) (g : AimedGoal) (b : SheetBlock) → IfSome k (λ n. is_number ps n ≡ true) → IfOk result (Finds r ps logs.now
        (outside_of r g b ps (logs_of ps logs.now) (option_map (part_at ps) k) (part_at ps v) shown.now.log shown.now.column shown.now.by.items)) }
{
    let Some(k) = k else {
        return Ok(None);
    };
    outside(
        alloc,
        logs,
        Operand::Part(k),
        Operand::Part(v),
        columns(table, v),
        shown,
    )
}

/// `fibre`: all that Phi sends into the stable kernel.
pub(crate) fn fibre(
    alloc: Global,
    table: &Table,
    logs: &[KeptLog],
    goal: &Goal,
    block: &Block,
    t: u64,
    phi: u32,
    row: &Row<'_>,
) -> Result<Claimed, AllocError>
    requires few { length (parts_in table.now) < 2 ^ 32 }
    requires few_logs { length logs.now < 2 ^ 32 }
    requires block { AreBlockParts (parts_in table.now) block.now }
    requires phi { is_number (parts_in table.now) phi ≡ true }
    ensures { (q : ProblemValue) → IfOk result (FollowsIn q (parts_in table.now) logs.now goal.now block.now (places.Fibre t phi) row.now) }
{
    let Row::Fibre { part: k, shown } = row else {
        return Ok(Claimed::Form);
    };
    let Some(c) = part(table, *k) else {
        return Ok(Claimed::Reference);
    };
    let condition = sent_into(table, logs, phi, nth(&block.kernels, t), c, shown);
    claim_if(alloc, condition, after_fibre(&goal.aim, t, phi, c))
}

// Part c generates all that part a sends into the image of part k, where k, the log, X and W are there.
fn sent_into(
    table: &Table,
    logs: &[KeptLog],
    a: u32,
    k: Option<u32>,
    c: u32,
    shown: &Generated,
) -> Option<Condition>
    requires few { length (parts_in table.now) < 2 ^ 32 }
    requires few_logs { length logs.now < 2 ^ 32 }
    ensures { let ps = parts_in table.now in (r : RingValue) (g : AimedGoal) (b : SheetBlock)
        → is_number ps a ≡ true → IfSome k (λ n. is_number ps n ≡ true) → is_number ps c ≡ true → Finds r ps logs.now
        (sent_into_by r g b ps (logs_of ps logs.now) (part_at ps a) (option_map (part_at ps) k) (part_at ps c) shown.now.log shown.now.x shown.now.w) result }
{
    let k = k?;
    let shown = generating(table, logs, shown)?;
    Some(Condition::Preimage {
        log: shown.log,
        a: Operand::Part(a),
        b: Operand::Part(k),
        c,
        x: shown.x,
        w: shown.w,
    })
}

/// `one`: the map is one to one.
pub(crate) fn one(
    alloc: Global,
    table: &Table,
    goal: &Goal,
    t: u64,
    phi: u32,
    c: u32,
    row: &Row<'_>,
) -> Result<Claimed, AllocError>
    requires few { length (parts_in table.now) < 2 ^ 32 }
    requires phi { is_number (parts_in table.now) phi ≡ true }
    requires c { is_number (parts_in table.now) c ≡ true }
    ensures { (q : ProblemValue) (ls : List KeptLogValue) (b : BlockValue) → IsAim q (parts_in table.now) goal.now.aim
        → IfOk result (FollowsIn q (parts_in table.now) ls goal.now b (places.One t phi c) row.now) }
{
    let Row::One { w } = row else {
        return Ok(Claimed::Form);
    };
    let condition = covered(alloc, table, c, source_kernel(&goal.aim), *w)?;
    claim_if(
        alloc,
        condition,
        after_link(&goal.aim, t, phi, Vec::new(alloc)),
    )
}

/// `notone`: the map is not one to one.
pub(crate) fn not_one(
    alloc: Global,
    table: &Table,
    logs: &[KeptLog],
    goal: &Goal,
    t: u64,
    phi: u32,
    c: u32,
    row: &Row<'_>,
) -> Result<Claimed, AllocError>
    requires few_logs { length logs.now < 2 ^ 32 }
    requires phi { is_number (parts_in table.now) phi ≡ true }
    requires c { is_number (parts_in table.now) c ≡ true }
    ensures { (q : ProblemValue) (b : BlockValue) → IsAim q (parts_in table.now) goal.now.aim
        → IfOk result (FollowsIn q (parts_in table.now) logs.now goal.now b (places.NotOne t phi c) row.now) }
{
    let Row::NotOne { shown } = row else {
        return Ok(Claimed::Form);
    };
    let condition = outside_part(alloc, table, logs, source_kernel(&goal.aim), c, shown)?;
    claim_if(
        alloc,
        condition,
        after_link(&goal.aim, t, phi, Vec::new(alloc)),
    )
}
