// Lines behind the head of a report, each judged by what stands before it.
ghost use Rattle.std.specs.Prelude.{IfOk, OnOk, Some, option_map, ◌≡◌};
ghost use Rattle.fm_judge.specs.Judging.{State, judged_line, step, unread as unread_line, without_exponents as capped_text};
ghost use Rattle.fm_lines.specs.Rows.{IsLineOver, IsRowOver, line_said, row_line};
ghost use Rattle.fm_problem.specs.Sound.{IsProblem};
ghost use Rattle.fm_problem.specs.declared.problem.Problem.{Problem as ProblemValue};
ghost use Rattle.fm_report.specs.Reading.{line_in};
ghost use Rattle.fm_problem.specs.Statements.{statement_of};
ghost use Rattle.fm_cert.specs.Lines.{Head, Question};
ghost use Rattle.fm_check.specs.Lines.{IsOfHead, IsOfHeadIf, IsReason, capped_reason};
ghost use Rattle.fm_check.specs.Reports.{IsStage, StandsAt, Steps, Tells};

use crate::between::{add_ideal, begin_query};
use crate::report::Report;
use crate::stage::Stage;
use crate::stages::next_stage;
use fm_asked::without_exponents;
use fm_conditions::{Refused, Why};
use fm_lines::{LineText, Row, read_line};
use fm_problem::{Problem, Query};
use std::alloc::{AllocError, Global};
use std::mem;

/// A line behind the head. What is kept is of use only where the line is not bad.
pub(crate) fn judge_line(
    alloc: Global,
    report: &mut Report,
    stage: &mut Stage,
    line: &[u8],
) -> Result<(), Refused>
    requires problem { IsProblem report.old.problem }
    requires stage { IsStage report.old.problem stage.old }
    ensures judged { (s : State) → Tells report.old s → StandsAt report.old.problem stage.old s → Steps report.new stage.new result (step s line.now) }
    ensures problem { OnOk result (IsProblem report.new.problem) }
    ensures stage { OnOk result (IsStage report.new.problem stage.new) }
{
    match read_behind(alloc, &report.problem, stage, line) {
        Ok(Some(LineText::Row(row))) => judge_row(alloc, report, stage, row),
        Ok(Some(LineText::Question { number, question })) => {
            judge_question(alloc, report, stage, line, number, question)
        }
        Ok(Some(LineText::Head(text))) => judge_head(alloc, report, stage, line, text),
        Ok(None) => Err(unread(alloc, report, stage, line)),
        Err(_) => Err(Refused::Memory),
    }
}

/// A line `query` with this number and this question.
fn judge_question(
    alloc: Global,
    report: &mut Report,
    stage: &mut Stage,
    line: &[u8],
    number: u64,
    question: &[u8],
) -> Result<(), Refused>
    requires problem { IsProblem report.old.problem }
    requires stage { IsStage report.old.problem stage.old }
    ensures judged { (s : State) → Tells report.old s → StandsAt report.old.problem stage.old s
        → option_map (Question number) (statement_of question.now) ≡ line_in s.sheet line.now → Steps report.new stage.new result (step s line.now) }
    ensures problem { OnOk result (IsProblem report.new.problem) }
    ensures stage { OnOk result (IsStage report.new.problem stage.new) }
{
    match begin_query(alloc, report, stage, number, question) {
        Ok(true) => Ok(()),
        Ok(false) => Err(unread(alloc, report, stage, line)),
        Err(_) => Err(Refused::Memory),
    }
}

/// A line of the head, which is the text.
fn judge_head(
    alloc: Global,
    report: &mut Report,
    stage: &mut Stage,
    line: &[u8],
    text: &[u8],
) -> Result<(), Refused>
    requires problem { IsProblem report.old.problem }
    requires stage { IsStage report.old.problem stage.old }
    requires head { IsOfHead (statement_of text.now) }
    ensures judged { (s : State) → Tells report.old s → StandsAt report.old.problem stage.old s
        → option_map Head (statement_of text.now) ≡ line_in s.sheet line.now → Steps report.new stage.new result (step s line.now) }
    ensures problem { OnOk result (IsProblem report.new.problem) }
    ensures stage { OnOk result (IsStage report.new.problem stage.new) }
{
    match add_ideal(alloc, report, stage, text) {
        Ok(true) => Ok(()),
        Ok(false) => Err(unread(alloc, report, stage, line)),
        Err(_) => Err(Refused::Memory),
    }
}

/// What a line says behind the head.
fn read_behind<'a>(
    alloc: Global,
    problem: &Problem,
    stage: &Stage,
    line: &'a [u8],
) -> Result<Option<LineText<'a>>, AllocError>
    requires { IsProblem problem.now }
    ensures line { (s : State) → s.sheet.head ≡ Some problem.now → StandsAt problem.now stage.now s → IfOk result (λ o. line_said o ≡ line_in s.sheet line.entry.now) }
    ensures over { IfOk result (λ o. IsLineOver problem.now.ring o) }
    ensures head { IfOk result IsOfHeadIf }
{
    read_line(
        alloc,
        problem.ring,
        problem.vars.as_slice(),
        query_at(stage),
        line,
    )
}

/// The query at hand, where there is one.
fn query_at(stage: &Stage) -> Option<&Query>
    ensures { (q : ProblemValue) (s : State) → StandsAt q stage.entry.now s → s.sheet.asked ≡ option_map (λ z. z.now) result }
{
    match stage {
        Stage::Between => None,
        Stage::Answer(asked) => Some(&asked.query),
        Stage::Certificate(asked, _) => Some(&asked.query),
        Stage::Done(asked) => Some(&asked.query),
        Stage::End => None,
    }
}

/// Why a line is bad that says nothing: it has no form; but where it could be a row that stands there with other exponents, one of them is above the bound.
fn unread(alloc: Global, report: &mut Report, stage: &mut Stage, line: &[u8]) -> Refused
    requires problem { IsProblem report.old.problem }
    requires stage { IsStage report.old.problem stage.old }
    ensures { (s : State) → Tells report.old s → StandsAt report.old.problem stage.old s
        → IsReason result (unread_line s (line_in s.sheet (capped_text line.now))) }
{
    let Ok(capped) = without_exponents(alloc, line) else {
        return Refused::Memory;
    };
    match read_behind(alloc, &report.problem, stage, &capped) {
        Ok(Some(LineText::Row(row))) => unless_form(judge_row(alloc, report, stage, row)),
        Ok(_) => Refused::Bad(Why::Form),
        Err(_) => Refused::Memory,
    }
}

/// Exponents, unless a row has no form.
fn unless_form(judged: Result<(), Refused>) -> Refused
    ensures { result ≡ capped_reason judged }
{
    match judged {
        Err(Refused::Memory) => Refused::Memory,
        Err(Refused::Bad(Why::Form)) => Refused::Bad(Why::Form),
        _ => Refused::Bad(Why::Exponents),
    }
}

/// A row behind the head.
fn judge_row(
    alloc: Global,
    report: &mut Report,
    stage: &mut Stage,
    row: Row<'_>,
) -> Result<(), Refused>
    requires problem { IsProblem report.old.problem }
    requires stage { IsStage report.old.problem stage.old }
    requires over { IsRowOver report.old.problem.ring row }
    ensures judged { (s : State) → Tells report.old s → StandsAt report.old.problem stage.old s
        → Steps report.new stage.new result (judged_line s (row_line row.entry)) }
    ensures problem { OnOk result (IsProblem report.new.problem) }
    ensures stage { OnOk result (IsStage report.new.problem stage.new) }
{
    let standing = mem::replace(stage, Stage::End);
    match next_stage(alloc, report, standing, row) {
        Ok(next) => {
            *stage = next;
            Ok(())
        }
        Err(refused) => Err(refused),
    }
}
