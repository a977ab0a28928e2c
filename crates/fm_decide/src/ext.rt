// The answers to queries on Ext.
ghost use Rattle.std.specs.Prelude.{IfOk, length, ◌≡◌};
ghost use Rattle.fm_cert.specs.Said.{IsEndOver};
ghost use Rattle.fm_certificates.specs.Reports.{certified_report};
ghost use Rattle.fm_decide.specs.Given.{IsAnswerOf};
ghost use Rattle.fm_problem.specs.Sound.{IsProblem, IsQueryOf};
ghost use Rattle.fm_problem.specs.declared.query.Query.TheVariants as queries;

use crate::ended::{Answer, stopped_answer};
use crate::ideals::generators;
use fm_cert::End;
use fm_certify::certify_ext;
use fm_ext::ext;
use fm_problem::Problem;
use fm_resolve::resolve;
use fm_run::{Side, Work};
use std::alloc::{AllocError, Global};

/// The answer to the query on Ext in degree i.
pub(crate) fn answer_ext(
    alloc: Global,
    problem: &Problem,
    units: u32,
    i: u8,
    ideal: u32,
) -> Result<Answer, AllocError>
    requires problem { IsProblem problem.now }
    requires query { IsQueryOf problem.now (queries.ExtOf i ideal) }
    ensures value { let z = (queries.ExtOf i ideal) in IfOk result (λ a. IsAnswerOf problem.now z a (certified_report units problem.now z)) }
    ensures over { IfOk result (λ a. IsEndOver problem.now.ring.vars a.end) }
{
    let generators = generators(problem, ideal);
    let mut work = Work::new(units);
    let x = match resolve(alloc, Side::Alone, problem.ring, generators, i, &mut work) {
        Ok(x) => x,
        Err(stopped) => return stopped_answer(alloc, stopped),
    };
    match ext(alloc, Side::Alone, x, i, &mut work) {
        Ok(y) => {
            let certificate = certify_ext(alloc, problem, ideal, i, &y)?;
            let end = End::ExtOf {
                generators: u64::from(y.cocycles().generators().found().cols()),
                relations: u64::from(y.relations().generators().found().cols()),
            };
            Ok(Answer { end, certificate })
        }
        Err(stopped) => stopped_answer(alloc, stopped),
    }
}
