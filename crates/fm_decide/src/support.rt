// The answers to queries on supports.
ghost use Rattle.std.specs.Prelude.{IfOk, ◌≡◌};
ghost use Rattle.fm_cert.specs.Said.{IsEndOver};
ghost use Rattle.fm_certificates.specs.Reports.{certified_report};
ghost use Rattle.fm_decide.specs.Given.{IsAnswerOf};
ghost use Rattle.fm_problem.specs.Sound.{IsProblem, IsQueryOf};
ghost use Rattle.fm_problem.specs.declared.query.Query.TheVariants as queries;

use crate::ended::{Answer, stopped_answer};
use crate::ideals::generators;
use crate::printing::first_entries;
use fm_cert::End;
use fm_certify::certify_support;
use fm_problem::Problem;
use fm_queries::compute_support;
use fm_run::Work;
use std::alloc::{AllocError, Global};

/// The answer to the query on the support of the module in degree i.
pub(crate) fn answer_support(
    alloc: Global,
    problem: &Problem,
    units: u32,
    i: u8,
    ideal: u32,
) -> Result<Answer, AllocError>
    requires problem { IsProblem problem.now }
    requires query { IsQueryOf problem.now (queries.Support i ideal) }
    ensures value { let z = (queries.Support i ideal) in IfOk result (λ a. IsAnswerOf problem.now z a (certified_report units problem.now z)) }
    ensures over { IfOk result (λ a. IsEndOver problem.now.ring.vars a.end) }
{
    let generators = generators(problem, ideal);
    let mut work = Work::new(units);
    match compute_support(alloc, problem.ring, generators, i, &mut work) {
        Ok(found) => {
            let certificate = certify_support(alloc, problem, ideal, i, &found)?;
            let row = found.annihilator.generators().found();
            let end = End::Support {
                ideal: first_entries(alloc, row)?,
            };
            Ok(Answer { end, certificate })
        }
        Err(stopped) => stopped_answer(alloc, stopped),
    }
}
