// Queries of a problem text.
ghost use Rattle.std.specs.Prelude.{◌≡◌, OnErr, OnOk};
ghost use Rattle.fm_words.specs.Words.{value};
ghost use Rattle.fm_problem.specs.Problems.{IsBounded, degree_in, ideal_in, module_query as module_query_of, query_in as query_of_line, stage_in, vector_in, with_query};
ghost use Rattle.fm_problem.specs.Statements.{entries_of};
ghost use Rattle.fm_text.specs.Views.{FitsRules, rules_view};
ghost use Rattle.fm_problem.specs.Views.{statement_view};
ghost use Rattle.fm_words.specs.Steps.{Gives, Is};

use crate::ideals::rules_of;
use crate::keyword::Question;
use crate::limits::{QUERIES, STAGE};
use crate::places::ideal_place;
use crate::polynomials::polynomial_of_line;
use crate::statements::StatementText;
use crate::{FaultKind, Problem, Query};
use fm_poly::Poly;
use fm_text::Rules;
use fm_words::{Mark, ReadError, first_part, is_blank, number};
use sqlite_items::Items;
use std::alloc::Global;

fn read_degree(problem: &Problem, digits: &[u8]) -> Result<u8, FaultKind>
    ensures { Is (λ i. i) result (degree_in problem.now (value digits.now)) }
{
    let greatest = problem.ring.vars;
    let Some(n) = number(digits) else {
        return Err(FaultKind::Range);
    };
    if n > u64::from(greatest) {
        return Err(FaultKind::Range);
    }
    Ok(n as u8)
}

fn read_stage(digits: &[u8]) -> Result<u8, FaultKind>
    ensures { Is (λ e. e) result (stage_in (value digits.now)) }
{
    let Some(n) = number(digits) else {
        return Err(FaultKind::Limit);
    };
    if n > u64::from(STAGE) {
        return Err(FaultKind::Limit);
    }
    Ok(n as u8)
}

fn find_ideal(problem: &Problem, name: &[u8]) -> Result<u32, FaultKind>
    requires { IsBounded problem.now }
    ensures { Is (λ k. k) result (ideal_in problem.now name.now) }
{
    let Some(k) = ideal_place(problem.ideals.as_slice(), name) else {
        return Err(FaultKind::UnknownName);
    };
    Ok(k as u32)
}

fn read_vector(
    alloc: Global,
    rules: &Rules<'_>,
    text: &[u8],
) -> Result<Items<Poly>, ReadError<FaultKind>>
    requires { FitsRules rules.now }
    ensures { Gives (λ v. v) result (vector_in (rules_view rules.now) (entries_of text.now)) }
{
    let mut entries = Items::new(alloc);
    if is_blank(text) {
        return Ok(entries);
    }
    let mut from = text;
    'entries: loop {
        let (part, more) = first_part(from, Mark::Comma);
        let f = polynomial_of_line(alloc, rules, part)?;
        entries.push(f)?;
        let Some(rest) = more else {
            return Ok(entries);
        };
        from = rest;
    }
}

fn module_query(question: Question, i: u8, ideal: u32) -> Query
    ensures { result ≡ module_query_of question i ideal }
{
    match question {
        Question::Zero => Query::Zero { i, ideal },
        Question::Root => Query::Root { i, ideal },
        Question::Support => Query::Support { i, ideal },
        Question::Resolution => Query::Resolution { i, ideal },
        Question::Ext => Query::ExtOf { i, ideal },
    }
}

/// What a query line asks.
pub fn query_in(
    alloc: Global,
    problem: &Problem,
    statement: StatementText<'_>,
) -> Result<Query, ReadError<FaultKind>>
    requires { IsBounded problem.now }
    ensures { Gives (λ z. z) result (query_of_line problem.now (statement_view statement.entry)) }
{
    let rules = rules_of(problem);
    match statement {
        StatementText::Module(question, degree, name) => {
            let i = read_degree(problem, degree)?;
            let ideal = find_ideal(problem, name)?;
            Ok(module_query(question, i, ideal))
        }
        StatementText::Class(degree, name, stage, entries) => {
            let i = read_degree(problem, degree)?;
            let ideal = find_ideal(problem, name)?;
            let e = read_stage(stage)?;
            let z = read_vector(alloc, &rules, entries)?;
            Ok(Query::Class { i, ideal, e, z })
        }
        StatementText::Invert(degree, name, text) => {
            let i = read_degree(problem, degree)?;
            let ideal = find_ideal(problem, name)?;
            let f = polynomial_of_line(alloc, &rules, text)?;
            Ok(Query::Invert { i, ideal, f })
        }
        StatementText::Map(degree, from, to) => {
            let i = read_degree(problem, degree)?;
            let source = find_ideal(problem, from)?;
            let target = find_ideal(problem, to)?;
            Ok(Query::Map { i, source, target })
        }
        StatementText::Member(name, text) => {
            let ideal = find_ideal(problem, name)?;
            let f = polynomial_of_line(alloc, &rules, text)?;
            Ok(Query::Member { ideal, f })
        }
        _ => Err(ReadError::Fault(FaultKind::Syntax)),
    }
}

/// Appends the query of a query line.
pub fn add_query(
    alloc: Global,
    problem: &mut Problem,
    statement: StatementText<'_>,
) -> Result<(), ReadError<FaultKind>>
    requires { IsBounded problem.old }
    ensures gives { Gives (λ _. problem.new) result (with_query problem.old (statement_view statement.entry)) }
    ensures bounded { OnOk result (IsBounded problem.new) }
    ensures unchanged { OnErr result (problem.new ≡ problem.old) }
{
    if problem.queries.len() >= QUERIES {
        return Err(ReadError::Fault(FaultKind::Limit));
    }
    let query = query_in(alloc, problem, statement)?;
    problem.queries.push(query)?;
    Ok(())
}
