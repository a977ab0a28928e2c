// The answers to queries on membership.
ghost use Rattle.std.specs.Prelude.{IfOk, ◌≡◌};
ghost use Rattle.fm_cert.specs.Said.{IsEndOver};
ghost use Rattle.fm_certificates.specs.Reports.{certified_report};
ghost use Rattle.fm_decide.specs.Given.{IsAnswerOf};
ghost use Rattle.fm_problem.specs.Sound.{IsProblem, IsQueryOf};
ghost use Rattle.fm_problem.specs.declared.query.Query.TheVariants as queries;

use crate::ended::{Answer, is_inside, stopped_answer};
use crate::ideals::generators;
use fm_cert::End;
use fm_certify::certify_member;
use fm_poly::Poly;
use fm_problem::Problem;
use fm_resolve::decide_member;
use fm_run::Work;
use std::alloc::{AllocError, Global};

/// The answer to the query whether f lies in the ideal with this number.
pub(crate) fn answer_member(
    alloc: Global,
    problem: &Problem,
    units: u32,
    ideal: u32,
    f: &Poly,
) -> Result<Answer, AllocError>
    requires problem { IsProblem problem.now }
    requires query { IsQueryOf problem.now (queries.Member ideal f.now) }
    ensures value { let z = (queries.Member ideal f.now) in IfOk result (λ a. IsAnswerOf problem.now z a (certified_report units problem.now z)) }
    ensures over { IfOk result (λ a. IsEndOver problem.now.ring.vars a.end) }
{
    let generators = generators(problem, ideal);
    let mut work = Work::new(units);
    match decide_member(alloc, problem.ring, generators, f, &mut work) {
        Ok(found) => {
            let certificate = certify_member(alloc, problem, ideal, &found)?;
            let yes = is_inside(&found.inside);
            Ok(Answer {
                end: End::Member { yes },
                certificate,
            })
        }
        Err(stopped) => stopped_answer(alloc, stopped),
    }
}
