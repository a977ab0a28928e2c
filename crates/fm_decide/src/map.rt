// The answers to queries on maps.
ghost use Rattle.std.specs.Prelude.{IfOk, Ok, length, ℕ, ◌<◌, ◌≡◌};
ghost use Rattle.fm_answers.specs.Answers.{ideal_at};
ghost use Rattle.fm_cert.specs.Said.{IsEndOver};
ghost use Rattle.fm_certificates.specs.Reports.{certified_report};
ghost use Rattle.fm_decide.specs.Given.{IsAnswerOf};
ghost use Rattle.fm_induced.specs.Joins.{onto_value};
ghost use Rattle.fm_plan.specs.Queries.{ask_map, onto_of, plan};
ghost use Rattle.fm_poly.specs.declared.ring.Ring.{Ring};
ghost use Rattle.fm_problem.specs.Sound.{IsProblem, IsQueryOf};
ghost use Rattle.fm_problem.specs.declared.query.Query.TheVariants as queries;
ghost use Rattle.fm_queries.specs.Maps.{IsMapOver, map_value};

use crate::ended::{Answer, is_inside, unanswered_answer};
use crate::ideals::generators;
use fm_cert::End;
use fm_certify::certify_map;
use fm_induced::Onto;
use fm_problem::Problem;
use fm_queries::{Map, decide_map};
use fm_run::Work;
use std::alloc::{AllocError, Global};

/// The answer to the query on the map in degree i from the module of the source to that of the target.
pub(crate) fn answer_map(
    alloc: Global,
    problem: &Problem,
    units: u32,
    i: u8,
    source: u32,
    target: u32,
) -> Result<Answer, AllocError>
    requires problem { IsProblem problem.now }
    requires query { IsQueryOf problem.now (queries.Map i source target) }
    ensures value { let z = (queries.Map i source target) in IfOk result (λ a. IsAnswerOf problem.now z a (certified_report units problem.now z)) }
    ensures over { IfOk result (λ a. IsEndOver problem.now.ring.vars a.end) }
{
    let outer = generators(problem, source);
    let inner = generators(problem, target);
    let mut work = Work::new(units);
    match decide_map(alloc, problem.ring, outer, inner, i, &mut work) {
        Ok(found) => map_answer(alloc, problem, i, source, target, &found),
        Err(ended) => unanswered_answer(alloc, ended),
    }
}

// The answer, where the plan has found this.
fn map_answer(
    alloc: Global,
    problem: &Problem,
    i: u8,
    source: u32,
    target: u32,
    found: &Map,
) -> Result<Answer, AllocError>
    requires problem { IsProblem problem.now }
    requires source { source < length problem.now.ideals }
    requires target { target < length problem.now.ideals }
    requires over { IsMapOver problem.now.ring found.now }
    requires degree_source { length found.now.source.ext.resolution.next ≡ i }
    requires degree_target { length found.now.target.ext.resolution.next ≡ i }
    ensures value { let r = problem.now.ring in let fs = ideal_at problem.now source in let gs = ideal_at problem.now target in (units left : ℕ)
        → plan r (ask_map i fs gs) units ≡ record { end = Ok (map_value r i fs gs found.now); left = left }
        → let z = queries.Map i source target in IfOk result (λ a. IsAnswerOf problem.now z a (certified_report units problem.now z)) }
    ensures over { IfOk result (λ a. IsEndOver problem.now.ring.vars a.end) }
{
    let certificate = certify_map(alloc, problem, source, target, i, found)?;
    let end = End::Map {
        zero: is_inside(&found.null),
        one: is_inside(&found.fibre.inside),
        onto: least_stage(&found.onto),
    };
    Ok(Answer { end, certificate })
}

// The least stage at which the map is onto, if there is one.
fn least_stage(onto: &Onto) -> Option<u64>
    ensures { (r : Ring) → onto_of r (onto_value r onto.now) ≡ result }
{
    match onto {
        Onto::At { links, .. } => Some(links.len() as u64),
        Onto::Never { .. } => None,
    }
}
