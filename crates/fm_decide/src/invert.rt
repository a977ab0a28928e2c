// The answers to queries on inverting.
ghost use Rattle.std.specs.Prelude.{IfOk, ◌≡◌};
ghost use Rattle.fm_cert.specs.Said.{IsEndOver};
ghost use Rattle.fm_certificates.specs.Reports.{certified_report};
ghost use Rattle.fm_decide.specs.Given.{IsAnswerOf};
ghost use Rattle.fm_plan.specs.Queries.{power_of};
ghost use Rattle.fm_poly.specs.declared.ring.Ring.{Ring};
ghost use Rattle.fm_problem.specs.Sound.{IsProblem, IsQueryOf};
ghost use Rattle.fm_problem.specs.declared.query.Query.TheVariants as queries;
ghost use Rattle.fm_support.specs.Inverting.{inverted_value};

use crate::ended::{Answer, stopped_answer};
use crate::ideals::generators;
use fm_cert::End;
use fm_certify::certify_inverting;
use fm_poly::Poly;
use fm_problem::Problem;
use fm_queries::decide_inverting;
use fm_run::Work;
use fm_support::Inverted;
use std::alloc::{AllocError, Global};

/// The answer to the query whether the module in degree i vanishes after inverting f.
pub(crate) fn answer_invert(
    alloc: Global,
    problem: &Problem,
    units: u32,
    i: u8,
    ideal: u32,
    f: &Poly,
) -> Result<Answer, AllocError>
    requires problem { IsProblem problem.now }
    requires query { IsQueryOf problem.now (queries.Invert i ideal f.now) }
    ensures value { let z = (queries.Invert i ideal f.now) in IfOk result (λ a. IsAnswerOf problem.now z a (certified_report units problem.now z)) }
    ensures over { IfOk result (λ a. IsEndOver problem.now.ring.vars a.end) }
{
    let generators = generators(problem, ideal);
    let mut work = Work::new(units);
    match decide_inverting(alloc, problem.ring, generators, i, f, &mut work) {
        Ok(found) => {
            let certificate = certify_inverting(alloc, problem, ideal, i, f, &found)?;
            let end = End::Invert {
                power: least_power(&found.inverted),
            };
            Ok(Answer { end, certificate })
        }
        Err(stopped) => stopped_answer(alloc, stopped),
    }
}

// The least power that vanishes, if one does.
fn least_power(inverted: &Inverted) -> Option<u64>
    ensures { (r : Ring) → power_of r (inverted_value r inverted.now) ≡ result }
{
    match inverted {
        Inverted::Power { k, .. } => Some(u64::from(*k)),
        Inverted::Never { .. } => None,
    }
}
