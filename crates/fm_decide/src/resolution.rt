// The answers to queries on resolutions.
ghost use Rattle.std.specs.Prelude.{IfOk, length, ◌+◌, ◌<◌, ◌≡◌};
ghost use Rattle.fm_algebra.specs.Matrix.{listed};
ghost use Rattle.fm_cert.specs.Said.{IsEndOver};
ghost use Rattle.fm_certificates.specs.Reports.{certified_report};
ghost use Rattle.fm_decide.specs.Given.{IsAnswerOf};
ghost use Rattle.fm_limit.specs.ResolvedIdeal.{rank};
ghost use Rattle.fm_plan.specs.Results.{differentials_of};
ghost use Rattle.fm_problem.specs.Sound.{IsProblem, IsQueryOf};
ghost use Rattle.fm_problem.specs.declared.query.Query.TheVariants as queries;
ghost use Rattle.fm_resolve.specs.Resolutions.{resolution_value};

use crate::ended::{Answer, stopped_answer};
use crate::ideals::generators;
use fm_cert::End;
use fm_certify::certify_resolution;
use fm_problem::Problem;
use fm_resolve::{Resolution, resolve};
use fm_run::{Side, Work};
use std::alloc::{AllocError, Global};

/// The answer to the query on a resolution through degree i.
pub(crate) fn answer_resolution(
    alloc: Global,
    problem: &Problem,
    units: u32,
    i: u8,
    ideal: u32,
) -> Result<Answer, AllocError>
    requires problem { IsProblem problem.now }
    requires query { IsQueryOf problem.now (queries.Resolution i ideal) }
    ensures value { let z = (queries.Resolution i ideal) in IfOk result (λ a. IsAnswerOf problem.now z a (certified_report units problem.now z)) }
    ensures over { IfOk result (λ a. IsEndOver problem.now.ring.vars a.end) }
{
    let generators = generators(problem, ideal);
    let mut work = Work::new(units);
    match resolve(alloc, Side::Alone, problem.ring, generators, i, &mut work) {
        Ok(x) => {
            let ranks = ranks(alloc, &x)?;
            let certificate = certify_resolution(alloc, problem, ideal, i, &x)?;
            Ok(Answer {
                end: End::Ranks { ranks },
                certificate,
            })
        }
        Err(stopped) => stopped_answer(alloc, stopped),
    }
}

// The ranks of P_0, P_1, .., one more than there are differentials.
fn ranks(alloc: Global, x: &Resolution) -> Result<Vec<u64>, AllocError>
    ensures { let r = x.now.first.matrix.ring in IfOk result (λ ranks.
        ranks.items ≡ listed (length x.now.next + 2) (rank r.prime r.vars (differentials_of r (resolution_value r x.now)))) }
{
    let mut ranks = Vec::new(alloc);
    ranks.push(1)?;
    ranks.push(u64::from(x.first().width()))?;
    let mut left = x.next();
    'generators: loop {
        let Some((generators, later)) = left.split_first() else {
            return Ok(ranks);
        };
        ranks.push(u64::from(generators.found().cols()))?;
        left = later;
    }
}
