// What a line claims in its place.
ghost use Rattle.std.specs.Prelude.{IfOk, length, ◌<◌, ◌^◌};
ghost use Rattle.fm_pres.specs.Tables.{parts_in};
ghost use Rattle.fm_conditions.specs.Meanings.{logs_of};
ghost use Rattle.fm_claims.specs.Following.{FollowsIn, claim_in};
ghost use Rattle.fm_claims.specs.Further.{IsLater};
ghost use Rattle.fm_pres.specs.Blocks.{AreBlockParts};
ghost use Rattle.fm_places.specs.Meanings.{IsGoal, IsPlace, place_of};
ghost use Rattle.fm_claims.specs.Views.{IsClaim, IsSound};

use crate::Claimed;
use crate::deciding::{coordinates, dies, lives, lives_on, proper, whole};
use crate::further::claim_further;
use crate::membership::{cofactors, foreign, ideal_row};
use crate::resolving::{differential, exactness, lift};
use crate::roots::{chain, cocycles, morphism, relations, turn};
use fm_conditions::KeptLog;
use fm_lines::Row;
use fm_places::{Goal, Place};
use fm_pres::{Block, Table};
use fm_problem::Problem;
use std::alloc::{AllocError, Global};

/// What a line claims in its place, and the place after it. Where there are 2^32 - 1 parts or logs, it answers as where memory is short.
pub fn claim(
    alloc: Global,
    table: &Table,
    logs: &[KeptLog],
    problem: &Problem,
    goal: &Goal,
    block: &Block,
    place: Place,
    row: &Row<'_>,
) -> Result<Claimed, AllocError>
    requires goal { IsGoal problem.now (parts_in table.now) goal.now }
    requires block { AreBlockParts (parts_in table.now) block.now }
    requires place { IsPlace (parts_in table.now) place }
    ensures claim { let r = problem.now.ring in let ps = parts_in table.now in IfOk result (λ c. IsClaim r ps (logs_of ps logs.now) goal.now.aim c
        (claim_in problem.now ps logs.now goal.now block.now (place_of r ps goal.now.aim place) row.now)) }
    ensures sound { IfOk result (IsSound problem.now.ring (parts_in table.now) logs.now) }
{
    if table.len() == u32::MAX || logs.len() >= u32::MAX as usize {
        return Err(AllocError);
    }
    claim_early(alloc, table, logs, problem, goal, block, place, row)
}

// What a row claims, first in the places of a resolution, of Ext and of a chain.
fn claim_early(
    alloc: Global,
    table: &Table,
    logs: &[KeptLog],
    problem: &Problem,
    goal: &Goal,
    block: &Block,
    place: Place,
    row: &Row<'_>,
) -> Result<Claimed, AllocError>
    requires few { length (parts_in table.now) < 2 ^ 32 }
    requires few_logs { length logs.now < 2 ^ 32 }
    requires goal { IsGoal problem.now (parts_in table.now) goal.now }
    requires block { AreBlockParts (parts_in table.now) block.now }
    requires place { IsPlace (parts_in table.now) place }
    ensures { IfOk result (FollowsIn problem.now (parts_in table.now) logs.now goal.now block.now place row.now) }
{
    match place {
        Place::Differential(j) => differential(alloc, table, problem, goal, block, j, row),
        Place::Exactness(j) => exactness(alloc, table, logs, goal, block, j, row),
        Place::Lift(j) => lift(alloc, goal, block, j, row),
        Place::Cocycles => cocycles(alloc, table, logs, goal, block, row),
        Place::Relations => relations(alloc, table, logs, problem, goal, block, row),
        Place::Morphism => morphism(alloc, goal, block, row),
        Place::Chain(s) => chain(alloc, table, logs, block, s, row),
        Place::Turn(s) => turn(alloc, table, logs, goal, block, s, row),
        other => claim_later(alloc, table, logs, problem, goal, block, other, row),
    }
}

// What a row claims in the places after a chain, and on membership.
fn claim_later(
    alloc: Global,
    table: &Table,
    logs: &[KeptLog],
    problem: &Problem,
    goal: &Goal,
    block: &Block,
    place: Place,
    row: &Row<'_>,
) -> Result<Claimed, AllocError>
    requires few { length (parts_in table.now) < 2 ^ 32 }
    requires few_logs { length logs.now < 2 ^ 32 }
    requires goal { IsGoal problem.now (parts_in table.now) goal.now }
    requires block { AreBlockParts (parts_in table.now) block.now }
    requires place { IsPlace (parts_in table.now) place }
    requires later { IsLater place }
    ensures { IfOk result (FollowsIn problem.now (parts_in table.now) logs.now goal.now block.now place row.now) }
{
    match place {
        Place::Whole { t } => whole(alloc, table, block, t, row),
        Place::Proper { t } => proper(alloc, table, logs, block, t, row),
        Place::Coordinates { t } => coordinates(alloc, table, problem, goal, block, t, row),
        Place::Lives { w, t, k } => lives(alloc, table, logs, goal, block, w, t, k, row),
        Place::Dies { w, t, m } => dies(alloc, table, goal, block, w, t, m, row),
        Place::LivesOn { w, t } => lives_on(alloc, table, logs, goal, block, w, t, row),
        Place::IdealRow => ideal_row(alloc, table, problem, goal, row),
        Place::Cofactors { d } => cofactors(alloc, table, problem, goal, d, row),
        Place::Foreign { d } => foreign(alloc, table, logs, problem, goal, d, row),
        Place::Datum | Place::DatumBeyond { .. } | Place::End => Ok(Claimed::Form),
        other => claim_further(alloc, table, logs, problem, goal, block, other, row),
    }
}
