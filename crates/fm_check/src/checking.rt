// Reports, checked.
ghost use Rattle.std.specs.Prelude.{Err, IfOk, ◌≡◌};
ghost use Rattle.fm_judge.specs.Judging.{State, ended, judgement};
ghost use Rattle.fm_parts.specs.Replays.{Truncated};
ghost use Rattle.fm_problem.specs.Sound.{IsProblem};
ghost use Rattle.fm_check.specs.Heads.{Finds, IsBegun, IsFoundBad, after_order, after_ring, after_version, counts_of};
ghost use Rattle.fm_check.specs.Reports.{IsStage, StandsAt, Tells, finding};

use crate::Checked;
use crate::heads::{order_line, ring_line, version_line};
use crate::judging::judge_line;
use crate::report::Report;
use crate::stage::Stage;
use fm_asked::next_line;
use fm_conditions::{Refused, Why};
use fm_problem::Problem;
use std::alloc::{AllocError, Global};

/// Whether the text of a report is valid, and else its first bad line with the reason.
pub fn check(alloc: Global, text: &[u8]) -> Result<Checked, AllocError>
    ensures { IfOk result (λ found. judgement text.now ≡ finding found) }
{
    let Some((line, left)) = next_line(text) else {
        return Ok(missing(1));
    };
    match version_line(line) {
        Ok(version) => check_ring(alloc, version, left),
        Err(refused) => bad(1, refused),
    }
}

/// From the second line on.
fn check_ring(alloc: Global, version: u64, text: &[u8]) -> Result<Checked, AllocError>
    ensures { Finds 2 (after_version version) text.now result }
{
    let Some((line, left)) = next_line(text) else {
        return Ok(missing(2));
    };
    match ring_line(alloc, version, line) {
        Ok(problem) => check_order(alloc, version, problem, left),
        Err(refused) => bad(2, refused),
    }
}

/// From the third line on.
fn check_order(
    alloc: Global,
    version: u64,
    problem: Problem,
    text: &[u8],
) -> Result<Checked, AllocError>
    requires begun { IsBegun problem }
    ensures { Finds 3 (after_ring version problem) text.now result }
{
    let Some((line, left)) = next_line(text) else {
        return Ok(missing(3));
    };
    match order_line(version, problem, line) {
        Ok(problem) => check_lines(alloc, behind_head(version, problem), left),
        Err(refused) => bad(3, refused),
    }
}

/// A report behind its first lines.
fn behind_head(version: u64, problem: Problem) -> Report
    ensures tells { Tells result (after_order version problem) }
    ensures problem { result.problem ≡ problem }
{
    Report {
        version,
        problem,
        count: 0,
        verdicts: 0,
        passed: 0,
    }
}

/// From the fourth line on.
fn check_lines(alloc: Global, begun: Report, text: &[u8]) -> Result<Checked, AllocError>
    requires problem { IsProblem begun.problem }
    ensures { (s : State) → Tells begun s → StandsAt begun.problem Stage.Between s → Finds 4 s text.now result }
{
    let mut report = begun;
    let mut stage = Stage::Between;
    let mut number: u64 = 4;
    let mut left = text;
    'lines: loop {
        let Some((line, later)) = next_line(left) else {
            return Ok(at_end(number, &report, &stage));
        };
        match judge_line(alloc, &mut report, &mut stage, line) {
            Ok(()) => {}
            Err(refused) => return bad(number, refused),
        }
        let Some(next) = number.checked_add(1) else {
            return Err(AllocError);
        };
        number = next;
        left = later;
    }
}

/// What is found behind the last line, where the next would have this number.
fn at_end(number: u64, report: &Report, stage: &Stage) -> Checked
    ensures { (s : State) → Tells report.now s → StandsAt report.now.problem stage.now s → counts_of (ended number s s.stage) ≡ finding result }
{
    match stage {
        Stage::End => Checked::Accepted {
            verdicts: report.verdicts,
            passed: report.passed,
        },
        _ => missing(number),
    }
}

/// The line with this number is missing.
fn missing(number: u64) -> Checked
    ensures { finding result ≡ Err (record { line = number; why = Truncated }) }
{
    Checked::Refused {
        line: number,
        why: Why::Truncated,
    }
}

/// The line with this number is bad, or memory ran out.
fn bad(number: u64, refused: Refused) -> Result<Checked, AllocError>
    ensures { IfOk result (IsFoundBad number refused) }
{
    match refused {
        Refused::Memory => Err(AllocError),
        Refused::Bad(why) => Ok(Checked::Refused { line: number, why }),
    }
}
