// The first lines of a report: its version, its ring and its order.
ghost use Rattle.std.specs.Prelude.{IfOk, ◌≡◌};
ghost use Rattle.fm_conditions.specs.Reasons.{Judges};
ghost use Rattle.fm_judge.specs.Judging.{start, step};
ghost use Rattle.fm_problem.specs.Sound.{IsProblem};
ghost use Rattle.fm_check.specs.Heads.{IsBegun, after_order, after_ring, after_version};

use fm_conditions::{Refused, Why};
use fm_lines::read_report;
use fm_problem::{Problem, order_in, read_ring, with_order};
use fm_words::ReadError;
use std::alloc::Global;

/// The version of a report, which is 1 or 2. A line that tells none has no exponents that could be left out of it.
pub(crate) fn version_line(line: &[u8]) -> Result<u64, Refused>
    ensures { Judges after_version result (step start line.now) }
{
    let Some(version) = read_report(line) else {
        return Err(Refused::Bad(Why::Form));
    };
    if version != 1 && version != 2 {
        return Err(Refused::Bad(Why::Form));
    }
    Ok(version)
}

/// The problem that a ring line begins; in a report of version 1 its prime is at most 13.
pub(crate) fn ring_line(alloc: Global, version: u64, line: &[u8]) -> Result<Problem, Refused>
    ensures judged { Judges (after_ring version) result (step (after_version version) line.now) }
    ensures begun { IfOk result IsBegun }
{
    match read_ring(alloc, line) {
        Ok(problem) => {
            if version != 2 && problem.ring.prime.value() > 13 {
                return Err(Refused::Bad(Why::Form));
            }
            Ok(problem)
        }
        Err(ReadError::Fault(_)) => Err(Refused::Bad(Why::Form)),
        Err(ReadError::Memory) => Err(Refused::Memory),
    }
}

/// The problem with the order of an order line, in a report of this version.
pub(crate) fn order_line(version: u64, problem: Problem, line: &[u8]) -> Result<Problem, Refused>
    requires begun { IsBegun problem }
    ensures judged { Judges (after_order version) result (step (after_ring version problem) line.now) }
    ensures problem { IfOk result IsProblem }
{
    match order_in(line) {
        Some(order) => Ok(with_order(problem, order)),
        None => Err(Refused::Bad(Why::Form)),
    }
}
