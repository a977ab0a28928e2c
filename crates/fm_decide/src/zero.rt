// The answers to queries on vanishing.
ghost use Rattle.std.specs.Prelude.{IfOk, ◌≡◌};
ghost use Rattle.fm_cert.specs.Said.{IsEndOver};
ghost use Rattle.fm_certificates.specs.Reports.{certified_report};
ghost use Rattle.fm_decide.specs.Given.{IsAnswerOf};
ghost use Rattle.fm_problem.specs.Sound.{IsProblem, IsQueryOf};
ghost use Rattle.fm_problem.specs.declared.query.Query.TheVariants as queries;

use crate::ended::{Answer, is_inside, stopped_answer};
use crate::ideals::generators;
use fm_cert::End;
use fm_certify::certify_zero;
use fm_problem::Problem;
use fm_queries::decide_zero;
use fm_run::Work;
use std::alloc::{AllocError, Global};

/// The answer to the query whether the module in degree i is zero.
pub(crate) fn answer_zero(
    alloc: Global,
    problem: &Problem,
    units: u32,
    i: u8,
    ideal: u32,
) -> Result<Answer, AllocError>
    requires problem { IsProblem problem.now }
    requires query { IsQueryOf problem.now (queries.Zero i ideal) }
    ensures value { let z = (queries.Zero i ideal) in IfOk result (λ a. IsAnswerOf problem.now z a (certified_report units problem.now z)) }
    ensures over { IfOk result (λ a. IsEndOver problem.now.ring.vars a.end) }
{
    let generators = generators(problem, ideal);
    let mut work = Work::new(units);
    match decide_zero(alloc, problem.ring, generators, i, &mut work) {
        Ok(found) => {
            let certificate = certify_zero(alloc, problem, ideal, i, &found)?;
            let end = End::Zero {
                yes: is_inside(&found.whole),
                stable: found.base.chain().stable() as u64,
            };
            Ok(Answer { end, certificate })
        }
        Err(stopped) => stopped_answer(alloc, stopped),
    }
}
