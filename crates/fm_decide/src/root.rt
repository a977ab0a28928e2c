// The answers to queries on roots.
ghost use Rattle.std.specs.Prelude.{IfOk, ◌≡◌};
ghost use Rattle.fm_cert.specs.Said.{IsEndOver};
ghost use Rattle.fm_certificates.specs.Reports.{certified_report};
ghost use Rattle.fm_decide.specs.Given.{IsAnswerOf};
ghost use Rattle.fm_problem.specs.Sound.{IsProblem, IsQueryOf};
ghost use Rattle.fm_problem.specs.declared.query.Query.TheVariants as queries;

use crate::ended::{Answer, stopped_answer};
use crate::ideals::generators;
use fm_cert::End;
use fm_certify::certify_root;
use fm_problem::Problem;
use fm_queries::compute_base;
use fm_run::{Side, Work};
use std::alloc::{AllocError, Global};

/// The answer to the query on a root in degree i.
pub(crate) fn answer_root(
    alloc: Global,
    problem: &Problem,
    units: u32,
    i: u8,
    ideal: u32,
) -> Result<Answer, AllocError>
    requires problem { IsProblem problem.now }
    requires query { IsQueryOf problem.now (queries.Root i ideal) }
    ensures value { let z = (queries.Root i ideal) in IfOk result (λ a. IsAnswerOf problem.now z a (certified_report units problem.now z)) }
    ensures over { IfOk result (λ a. IsEndOver problem.now.ring.vars a.end) }
{
    let generators = generators(problem, ideal);
    let mut work = Work::new(units);
    match compute_base(alloc, Side::Alone, problem.ring, generators, i, &mut work) {
        Ok(base) => {
            let certificate = certify_root(alloc, problem, ideal, i, &base)?;
            let end = End::Root {
                rank: u64::from(base.ext().cocycles().generators().found().cols()),
                stable: base.chain().stable() as u64,
            };
            Ok(Answer { end, certificate })
        }
        Err(stopped) => stopped_answer(alloc, stopped),
    }
}
