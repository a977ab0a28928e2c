// The reader of problem texts.
ghost use Rattle.std.specs.Prelude.{◌≡◌, ◌+◌, ◌<◌, ◌^◌, IfOk, OnErr, OnOk, Ok, length, option_map};
ghost use Rattle.fm_gfp.specs.Primes.{prime_of};
ghost use Rattle.fm_words.specs.Lines.{ahead, reach};
ghost use Rattle.fm_words.specs.Words.{value};
ghost use Rattle.fm_problem.specs.Problems.{IsBounded, after_ring, order_in as order_in_statement, plus_line, problem_of, query_of, ring_of, with_line, with_order as problem_with_order};
ghost use Rattle.fm_problem.specs.Readings.{Reads};
ghost use Rattle.fm_problem.specs.Sound.{IsProblem};
ghost use Rattle.fm_problem.specs.Statements.{statement_of};
ghost use Rattle.fm_words.specs.Steps.{Gives, steps};

use crate::ideals::add_ideal;
use crate::names::read_names;
use crate::queries::{add_query, query_in};
use crate::statements::{StatementText, read_statement};
use crate::{FaultKind, Problem, ProblemError, Query};
use fm_gfp::Prime;
use fm_mono::Order;
use fm_poly::Ring;
use fm_words::{Lines, ReadError, end_of, next_line, number};
use sqlite_items::Items;
use std::alloc::Global;

fn read_prime(digits: &[u8]) -> Option<Prime>
    ensures { result ≡ prime_of (value digits.now) }
{
    let n = number(digits)?;
    Prime::of(n)
}

/// The problem that a ring line begins, with the order grevlex; or the first fault of the line.
pub fn read_ring(alloc: Global, line: &[u8]) -> Result<Problem, ReadError<FaultKind>>
    ensures gives { Gives (λ q. q) result (ring_of (statement_of line.now)) }
    ensures bounded { IfOk result IsBounded }
{
    let Some(StatementText::Ring(digits, names)) = read_statement(line) else {
        return Err(ReadError::Fault(FaultKind::Syntax));
    };
    let Some(prime) = read_prime(digits) else {
        return Err(ReadError::Fault(FaultKind::NotPrime));
    };
    let vars = read_names(alloc, names)?;
    let ring = Ring {
        prime,
        vars: vars.len() as u8,
        order: Order::Grevlex,
    };
    Ok(Problem {
        ring,
        vars,
        ideals: Items::new(alloc),
        queries: Items::new(alloc),
    })
}

/// The order of an order line; None where the line is another.
pub fn order_in(line: &[u8]) -> Option<Order>
    ensures { result ≡ order_in_statement (statement_of line.now) }
{
    match read_statement(line) {
        Some(StatementText::Order(order)) => Some(order),
        _ => None,
    }
}

/// Appends the ideal or the query of a line after the ring line and the order line; or gives the first fault of the line.
pub fn add_line(
    alloc: Global,
    problem: &mut Problem,
    line: &[u8],
) -> Result<(), ReadError<FaultKind>>
    requires { IsBounded problem.old }
    ensures gives { Gives (λ _. problem.new) result (with_line problem.old (statement_of line.now)) }
    ensures bounded { OnOk result (IsBounded problem.new) }
    ensures unchanged { OnErr result (problem.new ≡ problem.old) }
{
    let Some(statement) = read_statement(line) else {
        return Err(ReadError::Fault(FaultKind::Syntax));
    };
    match statement {
        StatementText::Ring(_, _) => Err(ReadError::Fault(FaultKind::Syntax)),
        StatementText::Order(_) => Err(ReadError::Fault(FaultKind::Syntax)),
        StatementText::Ideal(name, generators) => {
            add_ideal(alloc, problem, name, generators)?;
            Ok(())
        }
        _ => {
            add_query(alloc, problem, statement)?;
            Ok(())
        }
    }
}

fn read_lines(alloc: Global, begun: Problem, lines: Lines<'_>) -> Result<Problem, ProblemError>
    requires bounded { IsBounded begun }
    requires few { reach lines.number (option_map (λ r. r.now) lines.rest) < 2 ^ 32 }
    ensures { Reads (steps plus_line begun (ahead lines.entry.number (option_map (λ r. r.now) lines.entry.rest))) result }
{
    let mut problem = begun;
    let mut from = lines;
    'lines: loop {
        let Some((line, later)) = next_line(from) else {
            return Ok(problem);
        };
        match add_line(alloc, &mut problem, line.text) {
            Ok(()) => {}
            Err(error) => return Err(ProblemError::at(line.number, error)),
        }
        from = later;
    }
}

/// The problem with this order in place of its own.
pub fn with_order(problem: Problem, order: Order) -> Problem
    ensures { result ≡ problem_with_order order problem }
{
    let mut problem = problem;
    problem.ring.order = order;
    problem
}

// Reads the lines after the ring line.
fn read_after_ring(
    alloc: Global,
    problem: Problem,
    lines: Lines<'_>,
) -> Result<Problem, ProblemError>
    requires bounded { IsBounded problem }
    requires few { reach lines.number (option_map (λ r. r.now) lines.rest) < 2 ^ 32 }
    ensures { Reads (after_ring problem (ahead lines.entry.number (option_map (λ r. r.now) lines.entry.rest))) result }
{
    let Some((second, rest)) = next_line(lines) else {
        return Ok(problem);
    };
    match order_in(second.text) {
        None => read_lines(alloc, problem, lines),
        Some(order) => read_lines(alloc, with_order(problem, order), rest),
    }
}

#[tactic(auto, unfolding(crate::specs::Problems::problem_of))]
fn read_text(alloc: Global, text: &[u8]) -> Result<Problem, ProblemError>
    requires { length text.now + 1 < 2 ^ 32 }
    ensures { Reads (problem_of text.now) result }
{
    let all = Lines {
        number: 1,
        rest: Some(text),
    };
    let Some((first, lines)) = next_line(all) else {
        return Err(ProblemError::Fault {
            line: end_of(text),
            kind: FaultKind::Syntax,
        });
    };
    match read_ring(alloc, first.text) {
        Ok(problem) => read_after_ring(alloc, problem, lines),
        Err(error) => Err(ProblemError::at(first.number, error)),
    }
}

/// What a problem text says, or its first fault: lines are judged in order, and on a line its form before all else,
/// and then what stands in it from left to right.
pub fn read_problem(alloc: Global, text: &[u8]) -> Result<Problem, ProblemError>
    requires { length text.now + 1 < 2 ^ 32 }
    ensures reads { Reads (problem_of text.now) result }
    ensures sound { IfOk result IsProblem }
{
    match read_text(alloc, text) {
        Ok(problem) => Ok(problem),
        Err(error) => Err(error),
    }
}

/// What a query line asks after the lines of a problem, or its first fault; the line of the fault is 1.
/// The number of queries is not tested.
#[tactic(auto, unfolding(crate::specs::Problems::query_of))]
pub fn read_query(alloc: Global, problem: &Problem, line: &[u8]) -> Result<Query, ProblemError>
    requires { IsBounded problem.now }
    ensures { Reads (query_of problem.now line.now) result }
{
    let Some(statement) = read_statement(line) else {
        return Err(ProblemError::Fault {
            line: 1,
            kind: FaultKind::Syntax,
        });
    };
    match query_in(alloc, problem, statement) {
        Ok(query) => Ok(query),
        Err(error) => Err(ProblemError::at(1, error)),
    }
}
