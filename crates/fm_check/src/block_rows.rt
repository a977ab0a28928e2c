// Rows that begin blocks.
ghost use Rattle.std.specs.Prelude.{IfOk, List, None, OnOk, length, nat_eq, option_map, ◌&&◌, ◌<◌, ◌≡◌};
ghost use Rattle.fm_asked.specs.Beginnings.{IsBlockIf};
ghost use Rattle.fm_asked.specs.States.{IsAsked};
ghost use Rattle.fm_judge.specs.Goals.{target_goal};
ghost use Rattle.fm_judge.specs.Judging.{State, block_at, datum_line, datum_place};
ghost use Rattle.fm_places.specs.Meanings.{AreIdealsOver, IsGoal, goal_of, ideal_at, place_of};
ghost use Rattle.fm_pres.specs.Blocks.{AreBlockParts, block_of};
ghost use Rattle.fm_problem.specs.declared.problem.Problem.{Problem as ProblemValue};
ghost use Rattle.fm_report.specs.Parts.{Part};
ghost use Rattle.fm_words.specs.Words.{same_bytes};
ghost use Rattle.fm_check.specs.Standings.{IsCertificate, Leads, Says, parts_of};

use crate::certificate::Certificate;
use crate::certificates::no_block;
use fm_asked::{Asked, datum_row, ideal_place};
use fm_conditions::{Refused, Why};
use fm_places::{Aim, Goal, Place, beyond};
use fm_pres::Block;
use fm_problem::Problem;
use std::alloc::{AllocError, Global};
use std::mem;

/// A row `datum`: at the beginning of a certificate, or of the side of the target of a map.
pub(crate) fn on_datum(
    alloc: Global,
    problem: &Problem,
    asked: &mut Asked,
    certificate: &mut Certificate,
    name: &[u8],
    degree: u64,
) -> Result<(), Refused>
    requires ideals { AreIdealsOver problem.now.ring problem.now.ideals }
    requires asked { IsAsked problem.now.ring asked.old }
    requires certificate { IsCertificate problem.now (parts_of asked.old) certificate.old }
    requires log { certificate.old.log ≡ None }
    ensures leads { let g = goal_of problem.now (parts_of asked.old) certificate.old.goal in let p = place_of problem.now.ring (parts_of asked.old) certificate.old.goal.aim certificate.old.place in
        (s : State) → Says problem.now asked.old s → Leads problem.now asked.new certificate.new s result (datum_place s g p name.now degree) }
    ensures asked { OnOk result (IsAsked problem.now.ring asked.new) }
    ensures certificate { OnOk result (IsCertificate problem.now (parts_of asked.new) certificate.new) }
{
    match certificate.place {
        Place::Datum => begin_block(alloc, problem, asked, certificate, name, degree),
        Place::DatumBeyond { t } => {
            cross(alloc, &asked.block, &mut certificate.goal, t)?;
            begin_block(alloc, problem, asked, certificate, name, degree)
        }
        _ => Err(Refused::Bad(Why::Form)),
    }
}

/// Turns to the goal on the side of the target of a map, by the block at hand, which is copied.
fn cross(alloc: Global, block: &Option<Block>, goal: &mut Goal, t: u64) -> Result<(), AllocError>
    ensures goal { (q : ProblemValue) (ps : List Part) → OnOk result (goal_of q ps goal.new ≡ target_goal (goal_of q ps goal.old) (block_at (option_map (block_of ps) block.now)) t) }
    ensures sound { (q : ProblemValue) (ps : List Part) → OnOk result (AreIdealsOver q.ring q.ideals → IsGoal q ps goal.old → IsBlockIf ps block.now → IsGoal q ps goal.new) }
{
    let source = at_hand(alloc, block)?;
    let nothing = Goal {
        ideal: 0,
        degree: 0,
        aim: Aim::Ext {
            generators: 0,
            relations: 0,
        },
    };
    *goal = beyond(mem::replace(goal, nothing), source, t);
    Ok(())
}

/// A copy of the block at hand; before `datum` it has no matrices.
fn at_hand(alloc: Global, block: &Option<Block>) -> Result<Block, AllocError>
    ensures block { (ps : List Part) → IfOk result (λ b. block_of ps b ≡ block_at (option_map (block_of ps) block.now)) }
    ensures parts { (ps : List Part) → IfOk result (λ b. IsBlockIf ps block.now → AreBlockParts ps b) }
{
    match block {
        Some(block) => copy(alloc, block),
        None => Ok(no_block(alloc)),
    }
}

/// A copy of a block.
fn copy(alloc: Global, block: &Block) -> Result<Block, AllocError>
    ensures block { (ps : List Part) → IfOk result (λ b. block_of ps b ≡ block_of ps block.now) }
    ensures parts { (ps : List Part) → IfOk result (λ b. AreBlockParts ps block.now → AreBlockParts ps b) }
{
    Ok(Block {
        ideal: block.ideal,
        degree: block.degree,
        differentials: Vec::from_slice(alloc, &block.differentials)?,
        lift: Vec::from_slice(alloc, &block.lift)?,
        cocycles: Vec::from_slice(alloc, &block.cocycles)?,
        kernels: Vec::from_slice(alloc, &block.kernels)?,
        morphism: Vec::from_slice(alloc, &block.morphism)?,
    })
}

/// Begins a block for the ideal of this name in this degree, where this is what the goal speaks of; the resolution comes next.
fn begin_block(
    alloc: Global,
    problem: &Problem,
    asked: &mut Asked,
    certificate: &mut Certificate,
    name: &[u8],
    degree: u64,
) -> Result<(), Refused>
    requires asked { IsAsked problem.now.ring asked.old }
    requires goal { IsGoal problem.now (parts_of asked.old) certificate.old.goal }
    requires log { certificate.old.log ≡ None }
    ensures leads { (s : State) → Says problem.now asked.old s
        → Leads problem.now asked.new certificate.new s result (datum_line s (goal_of problem.now (parts_of asked.old) certificate.old.goal) name.now degree) }
    ensures asked { OnOk result (IsAsked problem.now.ring asked.new) }
    ensures certificate { OnOk result (IsCertificate problem.now (parts_of asked.new) certificate.new) }
{
    if ideal_place(problem.ideals.as_slice(), name).is_none() {
        return Err(Refused::Bad(Why::Reference));
    }
    if !is_of_goal(problem, &certificate.goal, name, degree) {
        return Err(Refused::Bad(Why::Value));
    }
    if !datum_row(alloc, problem, asked, name, degree)? {
        return Err(Refused::Bad(Why::Value));
    }
    certificate.place = Place::Differential(0);
    Ok(())
}

/// Whether the goal speaks of the ideal of this name in this degree.
fn is_of_goal(problem: &Problem, goal: &Goal, name: &[u8], degree: u64) -> bool
    requires { goal.now.ideal < length problem.now.ideals }
    ensures { result ≡ (same_bytes name.now (ideal_at problem.now goal.now.ideal).name && nat_eq degree goal.now.degree) }
{
    let ideals = problem.ideals.as_slice();
    let ideal = &ideals[goal.ideal as usize];
    if name != ideal.name.as_str().as_bytes() {
        return false;
    }
    degree == u64::from(goal.degree)
}
