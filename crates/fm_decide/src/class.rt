// The answers to queries on classes.
ghost use Rattle.std.specs.Prelude.{IfOk, IfSome, ◌<◌, ◌^◌, ◌≡◌};
ghost use Rattle.fm_chain.specs.Stages.{killed_value};
ghost use Rattle.fm_cert.specs.Said.{IsEndOver};
ghost use Rattle.fm_certificates.specs.Reports.{certified_report};
ghost use Rattle.fm_decide.specs.Given.{IsAnswerOf};
ghost use Rattle.fm_ext.specs.Exts.{ring_of};
ghost use Rattle.fm_plan.specs.Queries.{stage_of};
ghost use Rattle.fm_problem.specs.Sound.{IsProblem, IsQueryOf};
ghost use Rattle.fm_problem.specs.declared.query.Query.TheVariants as queries;

use crate::ended::{Answer, unanswered_answer};
use crate::ideals::generators;
use fm_cert::End;
use fm_certify::certify_class;
use fm_chain::Killed;
use fm_poly::Poly;
use fm_problem::Problem;
use fm_queries::{Class, decide_class};
use fm_run::Work;
use std::alloc::{AllocError, Global};

// The entries of a vector are counted below 2^32; there is no memory for more.
const LONGEST: usize = 4_294_967_295;

/// The answer to the query on the class (e, z) of degree i.
pub(crate) fn answer_class(
    alloc: Global,
    problem: &Problem,
    units: u32,
    i: u8,
    ideal: u32,
    e: u8,
    z: &[Poly],
) -> Result<Answer, AllocError>
    requires problem { IsProblem problem.now }
    requires query { IsQueryOf problem.now (queries.Class i ideal e z.now) }
    ensures value { let z = (queries.Class i ideal e z.now) in IfOk result (λ a. IsAnswerOf problem.now z a (certified_report units problem.now z)) }
    ensures over { IfOk result (λ a. IsEndOver problem.now.ring.vars a.end) }
{
    if z.len() > LONGEST {
        return Err(AllocError);
    }
    let generators = generators(problem, ideal);
    let mut work = Work::new(units);
    match decide_class(alloc, problem.ring, generators, i, e, z, &mut work) {
        Ok(found) => {
            let certificate = certify_class(alloc, problem, ideal, i, &found)?;
            let end = End::Class {
                stage: first_stage(e, &found),
            };
            Ok(Answer { end, certificate })
        }
        Err(ended) => unanswered_answer(alloc, ended),
    }
}

// The stage at which a class of stage e is zero, if it ever is.
fn first_stage(e: u8, found: &Class) -> Option<u64>
    requires { let r = ring_of found.now.base.ext in IfSome (stage_of r e (killed_value r found.now.killed)) (λ s. s < 2 ^ 64) }
    ensures { let r = ring_of found.now.base.ext in stage_of r e (killed_value r found.now.killed) ≡ result }
{
    match &found.killed {
        Killed::At { moves, .. } => Some(u64::from(e) + *moves),
        Killed::Never { .. } => None,
    }
}
