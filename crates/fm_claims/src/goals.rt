// What the certificate under an answer is to show.
ghost use Rattle.std.specs.Prelude.{IfOk, List, ◌≡◌};
ghost use Rattle.fm_vec.specs.Components.{AreOver};
ghost use Rattle.fm_problem.specs.declared.query.Query.TheVariants as queries;
ghost use Rattle.fm_report.specs.Parts.{Part};
ghost use Rattle.fm_judge.specs.Goals as goals;
ghost use Rattle.fm_lines.specs.Rows.{IsEndingOver};
ghost use Rattle.fm_places.specs.Meanings.{AreIdealsOver};
ghost use Rattle.fm_claims.specs.Goals.{IsGoalIn, IsQueryOver, goal_in};
ghost use Rattle.fm_places.specs.Meanings.{IsAim, aim_of};

use crate::problems::copies;
use fm_lines::Ending;
use fm_places::{Aim, Goal};
use fm_poly::Poly;
use fm_problem::{Problem, Query};
use std::alloc::{AllocError, Global};

/// What the certificate under this answer to the query is to show; None where it is no answer to it. Polynomials are copied.
pub fn goal_for(
    alloc: Global,
    problem: &Problem,
    query: &Query,
    ending: &Ending<'_>,
) -> Result<Option<Goal>, AllocError>
    requires ideals { AreIdealsOver problem.now.ring problem.now.ideals }
    requires query { IsQueryOver problem.now.ring query.now }
    requires ending { IsEndingOver problem.now.ring ending.now }
    ensures { (ps : List Part) → IfOk result (IsGoalIn problem.now ps (goal_in problem.now query.now ending.now)) }
{
    match query {
        Query::Member { ideal, f } => member_goal(alloc, problem, *ideal, f, ending),
        Query::Resolution { i, ideal } => resolution_goal(alloc, problem, *i, *ideal, ending),
        Query::ExtOf { i, ideal } => Ok(ext_goal(problem, *i, *ideal, ending)),
        Query::Root { i, ideal } => Ok(root_goal(problem, *i, *ideal, ending)),
        Query::Zero { i, ideal } => Ok(zero_goal(problem, *i, *ideal, ending)),
        Query::Class { i, ideal, e, z } => {
            class_goal(alloc, problem, *i, *ideal, *e, z.as_slice(), ending)
        }
        Query::Map { i, source, target } => Ok(map_goal(problem, *i, *source, *target, ending)),
        Query::Support { i, ideal } => support_goal(alloc, problem, *i, *ideal, ending),
        Query::Invert { i, ideal, f } => invert_goal(alloc, problem, *i, *ideal, f, ending),
    }
}

// What is said of an ideal; None where there is no such ideal.
fn about(problem: &Problem, ideal: u32, degree: u8, aim: Aim) -> Option<Goal>
    ensures { (ps : List Part) → AreIdealsOver problem.now.ring problem.now.ideals → IsAim problem.now ps aim
        → IsGoalIn problem.now ps (goals.about problem.now ideal degree (aim_of problem.now ps aim)) result }
{
    if ideal as usize >= problem.ideals.len() {
        return None;
    }
    Some(Goal { ideal, degree, aim })
}

// Whether the polynomial lies in the ideal.
fn member_goal(
    alloc: Global,
    problem: &Problem,
    ideal: u32,
    f: &Poly,
    ending: &Ending<'_>,
) -> Result<Option<Goal>, AllocError>
    requires ideals { AreIdealsOver problem.now.ring problem.now.ideals }
    requires over { f.now.ring ≡ problem.now.ring }
    ensures { (ps : List Part) → IfOk result (IsGoalIn problem.now ps (goal_in problem.now (queries.Member ideal f.now) ending.now)) }
{
    let Ending::Member { yes } = ending else {
        return Ok(None);
    };
    let f = f.copy(alloc)?;
    Ok(about(problem, ideal, 0, Aim::Membership { f, inside: *yes }))
}

// A resolution with these ranks.
fn resolution_goal(
    alloc: Global,
    problem: &Problem,
    i: u8,
    ideal: u32,
    ending: &Ending<'_>,
) -> Result<Option<Goal>, AllocError>
    requires ideals { AreIdealsOver problem.now.ring problem.now.ideals }
    ensures { (ps : List Part) → IfOk result (IsGoalIn problem.now ps (goal_in problem.now (queries.Resolution i ideal) ending.now)) }
{
    let Ending::Ranks { ranks } = ending else {
        return Ok(None);
    };
    if ranks.len() != i as usize + 2 {
        return Ok(None);
    }
    let ranks = Vec::from_slice(alloc, ranks)?;
    Ok(about(problem, ideal, i, Aim::Resolution { ranks }))
}

// Ext by its numbers of generators and relations.
fn ext_goal(problem: &Problem, i: u8, ideal: u32, ending: &Ending<'_>) -> Option<Goal>
    requires ideals { AreIdealsOver problem.now.ring problem.now.ideals }
    ensures { (ps : List Part) → IsGoalIn problem.now ps (goal_in problem.now (queries.ExtOf i ideal) ending.now) result }
{
    let Ending::ExtOf {
        generators,
        relations,
    } = ending
    else {
        return None;
    };
    let aim = Aim::Ext {
        generators: *generators,
        relations: *relations,
    };
    about(problem, ideal, i, aim)
}

// A root by its rank and the number of moves.
fn root_goal(problem: &Problem, i: u8, ideal: u32, ending: &Ending<'_>) -> Option<Goal>
    requires ideals { AreIdealsOver problem.now.ring problem.now.ideals }
    ensures { (ps : List Part) → IsGoalIn problem.now ps (goal_in problem.now (queries.Root i ideal) ending.now) result }
{
    let Ending::Root { rank, stable } = ending else {
        return None;
    };
    let aim = Aim::Root {
        rank: *rank,
        moves: *stable,
    };
    about(problem, ideal, i, aim)
}

// Whether the limit is zero, and the number of moves.
fn zero_goal(problem: &Problem, i: u8, ideal: u32, ending: &Ending<'_>) -> Option<Goal>
    requires ideals { AreIdealsOver problem.now.ring problem.now.ideals }
    ensures { (ps : List Part) → IsGoalIn problem.now ps (goal_in problem.now (queries.Zero i ideal) ending.now) result }
{
    let Ending::Zero { yes, stable } = ending else {
        return None;
    };
    let aim = Aim::Vanishing {
        is_zero: *yes,
        moves: *stable,
    };
    about(problem, ideal, i, aim)
}

// The stage at which a class is zero, or that there is none.
fn class_goal(
    alloc: Global,
    problem: &Problem,
    i: u8,
    ideal: u32,
    e: u8,
    z: &[Poly],
    ending: &Ending<'_>,
) -> Result<Option<Goal>, AllocError>
    requires ideals { AreIdealsOver problem.now.ring problem.now.ideals }
    requires over { AreOver problem.now.ring z.now }
    ensures { (ps : List Part) → IfOk result (IsGoalIn problem.now ps (goal_in problem.now (queries.Class i ideal e z.now) ending.now)) }
{
    let Ending::Class { stage } = ending else {
        return Ok(None);
    };
    let Some(stage) = *stage else {
        let z = copies(alloc, z)?;
        return Ok(about(problem, ideal, i, Aim::Living { e, z }));
    };
    if stage < u64::from(e) {
        return Ok(None);
    }
    let z = copies(alloc, z)?;
    let moves = stage - u64::from(e);
    Ok(about(problem, ideal, i, Aim::Dying { e, z, moves }))
}

// What is said of a map, on the side of its source.
fn map_goal(problem: &Problem, i: u8, source: u32, target: u32, ending: &Ending<'_>) -> Option<Goal>
    requires ideals { AreIdealsOver problem.now.ring problem.now.ideals }
    ensures { (ps : List Part) → IsGoalIn problem.now ps (goal_in problem.now (queries.Map i source target) ending.now) result }
{
    let Ending::Map { zero, one, onto } = ending else {
        return None;
    };
    if target as usize >= problem.ideals.len() {
        return None;
    }
    let aim = Aim::Outgoing {
        target,
        is_zero: *zero,
        is_one: *one,
        onto: *onto,
    };
    about(problem, source, i, aim)
}

// The ideal of the support.
fn support_goal(
    alloc: Global,
    problem: &Problem,
    i: u8,
    ideal: u32,
    ending: &Ending<'_>,
) -> Result<Option<Goal>, AllocError>
    requires ideals { AreIdealsOver problem.now.ring problem.now.ideals }
    requires ending { IsEndingOver problem.now.ring ending.now }
    ensures { (ps : List Part) → IfOk result (IsGoalIn problem.now ps (goal_in problem.now (queries.Support i ideal) ending.now)) }
{
    let Ending::Support { ideal: found } = ending else {
        return Ok(None);
    };
    let found = copies(alloc, found)?;
    Ok(about(problem, ideal, i, Aim::Support { ideal: found }))
}

// The power of f that annihilates, or that there is none.
fn invert_goal(
    alloc: Global,
    problem: &Problem,
    i: u8,
    ideal: u32,
    f: &Poly,
    ending: &Ending<'_>,
) -> Result<Option<Goal>, AllocError>
    requires ideals { AreIdealsOver problem.now.ring problem.now.ideals }
    requires over { f.now.ring ≡ problem.now.ring }
    ensures { (ps : List Part) → IfOk result (IsGoalIn problem.now ps (goal_in problem.now (queries.Invert i ideal f.now) ending.now)) }
{
    let Ending::Invert { power } = ending else {
        return Ok(None);
    };
    let f = f.copy(alloc)?;
    Ok(about(problem, ideal, i, Aim::Inverting { f, power: *power }))
}
