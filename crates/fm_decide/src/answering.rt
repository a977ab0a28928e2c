// The report of a problem.
ghost use Rattle.std.specs.Prelude.{IfOk, OnOk, not, true, ◌++◌, ◌<◌, ◌^◌, ◌≡◌};
ghost use Rattle.fm_cert.specs.Ends.{end_kind};
ghost use Rattle.fm_cert.specs.Lines.{lines_text};
ghost use Rattle.fm_cert.specs.Said.{IsQueryOver};
ghost use Rattle.fm_answers.specs.Answers.{are_answered, is_unanswered};
ghost use Rattle.fm_cert.specs.Said.{IsEndOver};
ghost use Rattle.fm_certificates.specs.Reports.{AreSmallReports, certified_bytes, certified_report, certified_reports};
ghost use Rattle.fm_decide.specs.Given.{IsAnswerOf};
ghost use Rattle.fm_problem.specs.Sound.{IsProblem, IsQueryOf};
ghost use Rattle.fm_report.specs.Reports.{QueryReport, block_lines, query_lines};

use crate::Answers;
use crate::class::answer_class;
use crate::ended::Answer;
use crate::ext::answer_ext;
use crate::invert::answer_invert;
use crate::map::answer_map;
use crate::member::answer_member;
use crate::resolution::answer_resolution;
use crate::root::answer_root;
use crate::support::answer_support;
use crate::zero::answer_zero;
use fm_cert::{End, Line, push_head, push_query};
use fm_problem::{Problem, Query};
use std::alloc::{AllocError, Global};

/// The report on the queries of a problem, with this number of units for each plan.
pub fn answer(alloc: Global, problem: &Problem, units: u32) -> Result<Answers, AllocError>
    requires { IsProblem problem.now }
    ensures report { IfOk result (λ a. a.report.items ≡ certified_bytes units problem.now) }
    ensures small { IfOk result (λ a. AreSmallReports (certified_reports units problem.now problem.now.queries)) }
    ensures all { IfOk result (λ a. a.all ≡ are_answered (certified_reports units problem.now problem.now.queries)) }
{
    let mut report = Vec::new(alloc);
    push_head(problem, 2, &mut report)?;
    let all = push_queries(alloc, problem, units, &mut report)?;
    Line::EndReport.push(problem, &mut report)?;
    Ok(Answers { all, report })
}

// Whether each query is answered or refused.
fn push_queries(
    alloc: Global,
    problem: &Problem,
    units: u32,
    out: &mut Vec<u8>,
) -> Result<bool, AllocError>
    requires { IsProblem problem.now }
    ensures all { IfOk result (λ all. all ≡ are_answered (certified_reports units problem.now problem.now.queries)) }
    ensures small { IfOk result (λ all. AreSmallReports (certified_reports units problem.now problem.now.queries)) }
    ensures text { OnOk result (out.new.items
        ≡ out.old.items ++ lines_text problem.now.vars (query_lines problem.now 1 (certified_reports units problem.now problem.now.queries))) }
{
    let mut all = true;
    let mut number = 0;
    let mut left = problem.queries.as_slice();
    'queries: loop {
        let Some((query, rest)) = left.split_first() else {
            return Ok(all);
        };
        left = rest;
        let answer = answer_query(alloc, problem, units, query)?;
        number += 1;
        push_block(problem, number, query, &answer, out)?;
        let answered = is_settled(&answer.end);
        all = all && answered;
    }
}

/// The answer to a query, with this number of units for its plan.
pub(crate) fn answer_query(
    alloc: Global,
    problem: &Problem,
    units: u32,
    query: &Query,
) -> Result<Answer, AllocError>
    requires problem { IsProblem problem.now }
    requires query { IsQueryOf problem.now query.now }
    ensures value { IfOk result (λ a. IsAnswerOf problem.now query.now a (certified_report units problem.now query.now)) }
    ensures over { IfOk result (λ a. IsEndOver problem.now.ring.vars a.end) }
{
    match query {
        Query::Zero { i, ideal } => answer_zero(alloc, problem, units, *i, *ideal),
        Query::Root { i, ideal } => answer_root(alloc, problem, units, *i, *ideal),
        Query::Invert { i, ideal, f } => answer_invert(alloc, problem, units, *i, *ideal, f),
        Query::Support { i, ideal } => answer_support(alloc, problem, units, *i, *ideal),
        Query::Resolution { i, ideal } => answer_resolution(alloc, problem, units, *i, *ideal),
        Query::Class { i, ideal, e, z } => {
            answer_class(alloc, problem, units, *i, *ideal, *e, z.as_slice())
        }
        Query::ExtOf { i, ideal } => answer_ext(alloc, problem, units, *i, *ideal),
        Query::Member { ideal, f } => answer_member(alloc, problem, units, *ideal, f),
        Query::Map { i, source, target } => answer_map(alloc, problem, units, *i, *source, *target),
    }
}

// The lines of a query: its question, its end, what stands under an answer, and its last line.
fn push_block<'x>(
    problem: &'x Problem,
    number: u64,
    query: &'x Query,
    answer: &'x Answer,
    out: &mut Vec<u8>,
) -> Result<(), AllocError>
    requires problem { IsProblem problem.now }
    requires query { IsQueryOver problem.now.ring.vars query.now }
    requires over { IsEndOver problem.now.ring.vars answer.now.end }
    ensures { (b : QueryReport) → IsAnswerOf problem.now query.now answer.now b
        → OnOk result (out.new.items ≡ out.old.items ++ lines_text problem.now.vars (block_lines problem.now number b)) }
{
    push_query(problem, number, query, out)?;
    answer.end.push(problem, out)?;
    out.extend_from_slice(&answer.certificate)?;
    Line::Done { number }.push(problem, out)?;
    Ok(())
}

// Whether the plan came to its end, by an answer or a refusal.
fn is_settled(end: &End) -> bool
    ensures { result ≡ not (is_unanswered (end_kind end.now)) }
{
    match end {
        End::Zero { .. }
        | End::Class { .. }
        | End::Invert { .. }
        | End::Support { .. }
        | End::Root { .. }
        | End::Ranks { .. }
        | End::ExtOf { .. }
        | End::Map { .. }
        | End::Member { .. }
        | End::WrongLength { .. }
        | End::NotCocycle { .. }
        | End::NotContained { .. } => true,
        End::Budget { .. } | End::Exponents { .. } => false,
    }
}
