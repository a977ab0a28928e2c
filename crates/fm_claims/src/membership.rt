// The lines on membership.
ghost use Rattle.std.specs.Prelude.{IfOk, List, length, suc, true, ℕ, ◌<◌, ◌^◌, ◌≡◌};
ghost use Rattle.fm_problem.specs.declared.problem.Problem.{Problem as ProblemValue};
ghost use Rattle.fm_report.specs.Parts.{Part};
ghost use Rattle.fm_pres.specs.Tables.{parts_in};
ghost use Rattle.fm_conditions.specs.declared.kept_log.KeptLog.{KeptLog as KeptLogValue};
ghost use Rattle.fm_pres.specs.declared.block.Block.{Block as BlockValue};
ghost use Rattle.fm_places.specs.declared.goal.Goal.{Goal as GoalValue};
ghost use Rattle.fm_places.specs.declared.place.Place.TheVariants as program;
ghost use Rattle.fm_claims.specs.Following.{FollowsIn};
ghost use Rattle.fm_pres.specs.Blocks.{AreBlockParts};
ghost use Rattle.fm_places.specs.Meanings.{IsGoal};
ghost use Rattle.fm_parts.specs.Replays.{is_number};

use crate::Claimed;
use crate::numbers::{excluding, part};
use crate::problems::generators;
use crate::told::member;
use crate::tools::{claim_one, column, row as row_of, times};
use fm_conditions::{Condition, KeptLog, Operand};
use fm_lines::Row;
use fm_places::{Goal, Place, after_row};
use fm_pres::Table;
use fm_problem::Problem;
use std::alloc::{AllocError, Global};

/// `d 1` without a block: the row of generators of the ideal.
pub(crate) fn ideal_row(
    alloc: Global,
    table: &Table,
    problem: &Problem,
    goal: &Goal,
    row: &Row<'_>,
) -> Result<Claimed, AllocError>
    requires few { length (parts_in table.now) < 2 ^ 32 }
    requires goal { IsGoal problem.now (parts_in table.now) goal.now }
    ensures { (ls : List KeptLogValue) (b : BlockValue) → IfOk result (FollowsIn problem.now (parts_in table.now) ls goal.now b program.IdealRow row.now) }
{
    let Row::D { j: number, part: d } = row else {
        return Ok(Claimed::Form);
    };
    if *number != 1 {
        return Ok(Claimed::Form);
    }
    let Some(d) = part(table, *d) else {
        return Ok(Claimed::Reference);
    };
    let generators = row_of(alloc, problem.ring, generators(problem, goal.ideal))?;
    let condition = Condition::Equal(Operand::Part(d), generators);
    claim_one(alloc, condition, after_row(&goal.aim, d))
}

/// `cofactors`.
pub(crate) fn cofactors(
    alloc: Global,
    table: &Table,
    problem: &Problem,
    goal: &Goal,
    d: u32,
    row: &Row<'_>,
) -> Result<Claimed, AllocError>
    requires few { length (parts_in table.now) < 2 ^ 32 }
    requires goal { IsGoal problem.now (parts_in table.now) goal.now }
    requires d { is_number (parts_in table.now) d ≡ true }
    ensures { (ls : List KeptLogValue) (b : BlockValue) → IfOk result (FollowsIn problem.now (parts_in table.now) ls goal.now b (program.Cofactors d) row.now) }
{
    let Row::Cofactors { x } = row else {
        return Ok(Claimed::Form);
    };
    let Some(x) = part(table, *x) else {
        return Ok(Claimed::Reference);
    };
    let f = member(alloc, &goal.aim)?;
    let f = column(alloc, problem.ring, &f)?;
    let product = times(alloc, Operand::Part(d), Operand::Part(x))?;
    claim_one(alloc, Condition::Equal(product, f), Place::End)
}

/// `foreign`.
pub(crate) fn foreign(
    alloc: Global,
    table: &Table,
    logs: &[KeptLog],
    problem: &Problem,
    goal: &Goal,
    d: u32,
    row: &Row<'_>,
) -> Result<Claimed, AllocError>
    requires few_logs { length logs.now < 2 ^ 32 }
    requires goal { IsGoal problem.now (parts_in table.now) goal.now }
    requires d { is_number (parts_in table.now) d ≡ true }
    ensures { (b : BlockValue) → IfOk result (FollowsIn problem.now (parts_in table.now) logs.now goal.now b (program.Foreign d) row.now) }
{
    let Row::Foreign { log, by } = row else {
        return Ok(Claimed::Form);
    };
    let f = member(alloc, &goal.aim)?;
    let f = column(alloc, problem.ring, &f)?;
    let Some(x) = excluding(alloc, logs, 1, *log, 1, by)? else {
        return Ok(Claimed::Reference);
    };
    let condition = Condition::Outside {
        log: x.log,
        e: 0,
        a: Operand::Part(d),
        v: f,
        column: x.column,
        by: x.by,
    };
    claim_one(alloc, condition, Place::End)
}
