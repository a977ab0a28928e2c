// Counts of how the queries of a problem end.
ghost use Rattle.std.specs.Prelude.{IfOk, ◌≡◌};
ghost use Rattle.fm_cert.specs.Ends.{end_kind, end_values};
ghost use Rattle.fm_answers.specs.Answers.{is_unanswered as ends_unanswered};
ghost use Rattle.fm_certificates.specs.Reports.{certified_reports};
ghost use Rattle.fm_decide.specs.Counts.{counts_of, says_no as answers_no, says_yes as answers_yes};
ghost use Rattle.fm_problem.specs.Sound.{IsProblem};

use crate::Counts;
use crate::answering::answer_query;
use fm_cert::End;
use fm_problem::Problem;
use std::alloc::{AllocError, Global};

/// Answers each query of a problem with this number of units for its plan, and counts how they end. It keeps no answer.
pub fn count(alloc: Global, problem: &Problem, units: u32) -> Result<Counts, AllocError>
    requires { IsProblem problem.now }
    ensures { IfOk result (λ c. c ≡ counts_of (certified_reports units problem.now problem.now.queries)) }
{
    let mut counts = Counts {
        yes: 0,
        no: 0,
        unanswered: 0,
    };
    let mut left = problem.queries.as_slice();
    'queries: loop {
        let Some((query, rest)) = left.split_first() else {
            return Ok(counts);
        };
        left = rest;
        let answer = answer_query(alloc, problem, units, query)?;
        counts.yes += u32::from(says_yes(&answer.end));
        counts.no += u32::from(says_no(&answer.end));
        counts.unanswered += u32::from(is_unanswered(&answer.end));
    }
}

fn says_yes(end: &End) -> bool
    ensures { result ≡ answers_yes (end_kind end.now) (end_values end.now) }
{
    match end {
        End::Zero { yes, .. } => *yes,
        End::Member { yes } => *yes,
        End::Class { stage } => stage.is_some(),
        End::Invert { power } => power.is_some(),
        _ => false,
    }
}

fn says_no(end: &End) -> bool
    ensures { result ≡ answers_no (end_kind end.now) (end_values end.now) }
{
    match end {
        End::Zero { yes, .. } => !*yes,
        End::Member { yes } => !*yes,
        End::Class { stage } => stage.is_none(),
        End::Invert { power } => power.is_none(),
        _ => false,
    }
}

fn is_unanswered(end: &End) -> bool
    ensures { result ≡ ends_unanswered (end_kind end.now) }
{
    matches!(end, End::Budget { .. } | End::Exponents { .. })
}
