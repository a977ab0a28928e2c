// The answers to a problem.
ghost use Rattle.std.specs.Prelude.{◌≡◌, ◌≤◌, length, IfOk};
ghost use Rattle.fm_certificates.specs.Reports.{AreSmallReports, certified_reports};
ghost use Rattle.fm_problem.specs.Sound.{IsProblem};
ghost use Rattle.fm_top.specs.Output.{HoldThroughout, decided, faulted, problem_limit, reported};
ghost use Rattle.fm_top.specs.Statuses.{IsOfText, IsWritten};

use crate::reply::Reply;
use fm_base::Status;
use fm_decide::answer;
use fm_problem::{FaultKind, Problem, ProblemError, read_problem};
use itoa::Buffer;
use std::alloc::{AllocError, Global};

// What a problem text within the limit gives, with this number of units for each query.
#[tactic(auto, unfolding(crate::specs::Output::decided))]
pub fn decide(alloc: Global, text: &[u8], units: u32) -> Result<Reply, AllocError>
    requires { length text.now ≤ problem_limit }
    ensures written { IfOk result (λ r. IsWritten r.status) }
    ensures of_text { IfOk result (λ r. IsOfText r.status) }
    ensures status { IfOk result (λ r. r.status ≡ (decided units text.now).status) }
    ensures bytes { IfOk result (λ r. r.bytes.items ≡ (decided units text.now).bytes) }
    ensures verdicts { IfOk result (λ r. HoldThroughout r.bytes.items) }
{
    match read_problem(alloc, text) {
        Ok(problem) => report(alloc, &problem, units),
        Err(ProblemError::Fault { line, kind }) => fault_line(alloc, line, kind),
        Err(ProblemError::Memory) => Err(AllocError),
    }
}

fn report(alloc: Global, problem: &Problem, units: u32) -> Result<Reply, AllocError>
    requires { IsProblem problem.now }
    ensures written { IfOk result (λ r. IsWritten r.status) }
    ensures of_text { IfOk result (λ r. IsOfText r.status) }
    ensures status { IfOk result (λ r. r.status ≡ (reported units problem.now).status) }
    ensures bytes { IfOk result (λ r. r.bytes.items ≡ (reported units problem.now).bytes) }
    ensures small { IfOk result (λ r. AreSmallReports (certified_reports units problem.now problem.now.queries)) }
{
    let answers = answer(alloc, problem, units)?;
    Ok(Reply {
        status: if answers.all {
            Status::Done
        } else {
            Status::Unanswered
        },
        bytes: answers.report,
    })
}

fn fault_line(alloc: Global, line: u32, kind: FaultKind) -> Result<Reply, AllocError>
    ensures written { IfOk result (λ r. IsWritten r.status) }
    ensures of_text { IfOk result (λ r. IsOfText r.status) }
    ensures status { IfOk result (λ r. r.status ≡ (faulted (record { line = line; kind = kind })).status) }
    ensures bytes { IfOk result (λ r. r.bytes.items ≡ (faulted (record { line = line; kind = kind })).bytes) }
{
    let mut bytes = b"line ".to_vec(alloc)?;
    let mut digits = Buffer::new();
    bytes.extend_from_slice(digits.format(u64::from(line)).as_bytes())?;
    bytes.extend_from_slice(b": ")?;
    bytes.extend_from_slice(kind.text().as_bytes())?;
    bytes.push(b'\n')?;
    Ok(Reply {
        status: Status::Problem,
        bytes,
    })
}
