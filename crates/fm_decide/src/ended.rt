// Answers to queries.
ghost use Rattle.std.specs.Prelude.{IfOk, IsSome, Result, Some, ◌≡◌, ℕ};
ghost use Rattle.fm_answers.specs.Answers.{refused_report};
ghost use Rattle.fm_cert.specs.Said.{IsEndOver};
ghost use Rattle.fm_certificates.specs.Reports.{certified_end};
ghost use Rattle.fm_decide.specs.Given.{IsAnswerOf};
ghost use Rattle.fm_plan.specs.Following.{unanswered_by};
ghost use Rattle.fm_plan.specs.Queries.{is_yes};
ghost use Rattle.fm_plan.specs.Tasks.{Unanswered};
ghost use Rattle.fm_poly.specs.declared.ring.Ring.{Ring};
ghost use Rattle.fm_problem.specs.declared.problem.Problem.{Problem};
ghost use Rattle.fm_problem.specs.declared.query.Query.{Query};
ghost use Rattle.fm_queries.specs.Founds.{ended_by, refusal_value};
ghost use Rattle.fm_syz.specs.Insides.{inside_value};

use fm_cert::End;
use fm_queries::{Refusal, Unanswered as Ended};
use fm_run::{Stop, Stopped};
use fm_syz::Inside;
use std::alloc::{AllocError, Global};

/// How a query ends, and the text of the certificate under its answer.
#[derive(Drop)]
pub(crate) struct Answer {
    pub end: End,
    pub certificate: Vec<u8>,
}

/// The answer to a query whose plan stopped in a task; none for want of memory.
pub(crate) fn stopped_answer(alloc: Global, stopped: Stopped) -> Result<Answer, AllocError>
    ensures value { IfOk result (λ a. (q : Problem) (z : Query) (u : Unanswered) → unanswered_by stopped ≡ Some u
        → IsAnswerOf q z a (certified_end q z (Result.Err u))) }
    ensures over { (n : ℕ) → IfOk result (λ a. IsEndOver n a.end) }
    ensures halts { IfOk result (λ a. IsSome (unanswered_by stopped)) }
{
    let Stopped { task, stop } = stopped;
    let certificate = Vec::new(alloc);
    match stop {
        Stop::Budget => Ok(Answer {
            end: End::Budget { task },
            certificate,
        }),
        Stop::Exponent => Ok(Answer {
            end: End::Exponents { task },
            certificate,
        }),
        Stop::Memory => Err(AllocError),
    }
}

/// The answer to a query whose plan stopped in a task, or that it refuses; none for want of memory.
pub(crate) fn unanswered_answer(alloc: Global, ended: Ended) -> Result<Answer, AllocError>
    ensures value { IfOk result (λ a. (q : Problem) (z : Query) (u : Unanswered) → ended_by ended ≡ Some u
        → IsAnswerOf q z a (certified_end q z (Result.Err u))) }
    ensures over { (n : ℕ) → IfOk result (λ a. IsEndOver n a.end) }
    ensures halts { IfOk result (λ a. IsSome (ended_by ended)) }
{
    match ended {
        Ended::Stopped(stopped) => stopped_answer(alloc, stopped),
        Ended::Refused(refusal) => Ok(refused_answer(alloc, refusal)),
    }
}

fn refused_answer(alloc: Global, refusal: Refusal) -> Answer
    ensures value { (q : Problem) (z : Query) → IsAnswerOf q z result (refused_report z (refusal_value refusal)) }
    ensures over { (n : ℕ) → IsEndOver n result.end }
{
    let certificate = Vec::new(alloc);
    match refusal {
        Refusal::WrongLength { found, needed } => Answer {
            end: End::WrongLength {
                found: u64::from(found),
                needed: u64::from(needed),
            },
            certificate,
        },
        Refusal::NotCocycle { component } => Answer {
            end: End::NotCocycle {
                component: u64::from(component),
            },
            certificate,
        },
        Refusal::NotContained { generator } => Answer {
            end: End::NotContained {
                generator: u64::from(generator),
            },
            certificate,
        },
    }
}

/// Whether all columns lie in an image.
pub(crate) fn is_inside(inside: &Inside) -> bool
    ensures { (r : Ring) → is_yes r (inside_value r inside.now) ≡ result }
{
    match inside {
        Inside::All(_) => true,
        Inside::First(_) => false,
    }
}
