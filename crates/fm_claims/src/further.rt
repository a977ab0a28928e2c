// The places of certificates on inverting, on the support and on maps.
ghost use Rattle.std.specs.Prelude.{IfOk, length, ◌<◌, ◌^◌, ◌≡◌};
ghost use Rattle.fm_problem.specs.declared.problem.Problem.{Problem as ProblemValue};
ghost use Rattle.fm_pres.specs.Tables.{parts_in};
ghost use Rattle.fm_claims.specs.Following.{FollowsIn};
ghost use Rattle.fm_claims.specs.Further.{IsFurther, IsOfMap};
ghost use Rattle.fm_pres.specs.Blocks.{AreBlockParts};
ghost use Rattle.fm_places.specs.Meanings.{IsAim, IsGoal, IsPlace};

use crate::Claimed;
use crate::annihilating::annihilator;
use crate::inverting::{colon, least, power, proper_colon};
use crate::linking::{link, never_onto, onto, open_link, short};
use crate::mapping::{fibre, lambda, non_null, not_one, null, one, phi};
use fm_conditions::KeptLog;
use fm_lines::Row;
use fm_places::{Goal, Place};
use fm_pres::{Block, Table};
use fm_problem::Problem;
use std::alloc::{AllocError, Global};

/// What a row claims in a place that comes after a chain, on inverting, on the support or on a map.
pub(crate) fn claim_further(
    alloc: Global,
    table: &Table,
    logs: &[KeptLog],
    problem: &Problem,
    goal: &Goal,
    block: &Block,
    place: Place,
    row: &Row<'_>,
) -> Result<Claimed, AllocError>
    requires few { length (parts_in table.now) < 2 ^ 32 }
    requires few_logs { length logs.now < 2 ^ 32 }
    requires goal { IsGoal problem.now (parts_in table.now) goal.now }
    requires block { AreBlockParts (parts_in table.now) block.now }
    requires place { IsPlace (parts_in table.now) place }
    requires further { IsFurther place }
    ensures { IfOk result (FollowsIn problem.now (parts_in table.now) logs.now goal.now block.now place row.now) }
{
    match place {
        Place::Power { t, k } => power(alloc, table, problem, goal, block, t, k, row),
        Place::Least { t, k } => least(alloc, table, logs, problem, goal, block, t, k, row),
        Place::Colon { t, found } => colon(alloc, table, logs, problem, goal, block, t, found, row),
        Place::ProperColon { t, found } => proper_colon(alloc, table, logs, block, t, &found, row),
        Place::Annihilator { t } => annihilator(alloc, table, logs, goal, block, t, row),
        _ => claim_of_map(alloc, table, logs, goal, block, place, row),
    }
}

// What a row claims in a place of a map.
fn claim_of_map(
    alloc: Global,
    table: &Table,
    logs: &[KeptLog],
    goal: &Goal,
    block: &Block,
    place: Place,
    row: &Row<'_>,
) -> Result<Claimed, AllocError>
    requires few { length (parts_in table.now) < 2 ^ 32 }
    requires few_logs { length logs.now < 2 ^ 32 }
    requires block { AreBlockParts (parts_in table.now) block.now }
    requires place { IsPlace (parts_in table.now) place }
    requires map { IsOfMap place }
    ensures { (q : ProblemValue) → IsAim q (parts_in table.now) goal.now.aim
        → IfOk result (FollowsIn q (parts_in table.now) logs.now goal.now block.now place row.now) }
{
    match place {
        Place::Lambda { t, identity } => lambda(alloc, table, goal, block, t, identity, row),
        Place::Phi { t, identity } => phi(alloc, table, goal, block, t, &identity, row),
        Place::Null { t, phi } => null(alloc, table, block, t, phi, row),
        Place::NonNull { t, phi } => non_null(alloc, table, logs, block, t, phi, row),
        Place::Fibre { t, phi } => fibre(alloc, table, logs, goal, block, t, phi, row),
        Place::One { t, phi, c } => one(alloc, table, goal, t, phi, c, row),
        Place::NotOne { t, phi, c } => not_one(alloc, table, logs, goal, t, phi, c, row),
        Place::Link { t, phi, found } => link(alloc, table, logs, goal, block, t, phi, found, row),
        Place::OpenLink { t, phi, found } => open_link(
            alloc, table, logs, block, t, phi, found, row,
        ),
        Place::Short { t, phi, found } => short(alloc, table, logs, block, t, phi, found, row),
        Place::Onto { phi, found, .. } => onto(alloc, table, block, phi, &found, row),
        Place::NeverOnto { phi, found, .. } => never_onto(
            alloc, table, logs, block, phi, &found, row,
        ),
        _ => unreachable!(),
    }
}
