// Lines between queries that are no rows.
ghost use Rattle.std.specs.Prelude.{IfOk, false, option_map, true, ◌≡◌};
ghost use Rattle.fm_judge.specs.Judging.{State};
ghost use Rattle.fm_cert.specs.Lines.{Head, Question};
ghost use Rattle.fm_problem.specs.Sound.{IsProblem};
ghost use Rattle.fm_problem.specs.Statements.{statement_of};
ghost use Rattle.fm_asked.specs.States.{IsAsked};
ghost use Rattle.fm_check.specs.Lines.{IsNew, IsOfHead, Tries, judged_if};
ghost use Rattle.fm_check.specs.Reports.{IsStage, StandsAt, Tells};

use crate::report::Report;
use crate::stage::Stage;
use fm_asked::Asked;
use fm_poly::Ring;
use fm_pres::Table;
use fm_problem::{ProblemError, Query, add_line, read_query};
use fm_words::ReadError;
use std::alloc::{AllocError, Global};

/// Whether a line of the head can be said: an ideal, before the first query.
pub(crate) fn add_ideal(
    alloc: Global,
    report: &mut Report,
    stage: &Stage,
    text: &[u8],
) -> Result<bool, AllocError>
    requires problem { IsProblem report.old.problem }
    requires head { IsOfHead (statement_of text.now) }
    ensures said { (s : State) → Tells report.old s → StandsAt report.old.problem stage.now s
        → Tries report.new stage.now result (judged_if s (option_map Head (statement_of text.now))) }
    ensures problem { IsProblem report.new.problem }
    ensures stage { IfOk result (λ said. said ≡ true → IsStage report.new.problem stage.now) }
    ensures unchanged { IfOk result (λ said. said ≡ false → report.new ≡ report.old) }
{
    match stage {
        Stage::Between => {}
        _ => return Ok(false),
    }
    if report.count != 0 {
        return Ok(false);
    }
    match add_line(alloc, &mut report.problem, text) {
        Ok(()) => Ok(true),
        Err(ReadError::Fault(_)) => Ok(false),
        Err(ReadError::Memory) => Err(AllocError),
    }
}

/// Whether a query can begin: between queries, with the next number.
pub(crate) fn begin_query(
    alloc: Global,
    report: &mut Report,
    stage: &mut Stage,
    number: u64,
    question: &[u8],
) -> Result<bool, AllocError>
    requires problem { IsProblem report.old.problem }
    ensures said { (s : State) → Tells report.old s → StandsAt report.old.problem stage.old s
        → Tries report.new stage.new result (judged_if s (option_map (Question number) (statement_of question.now))) }
    ensures problem { report.new.problem ≡ report.old.problem }
    ensures stage { IfOk result (λ said. said ≡ true → IsStage report.new.problem stage.new) }
    ensures unchanged { IfOk result (λ said. said ≡ false → (report.new ≡ report.old) × (stage.new ≡ stage.old)) }
{
    match stage {
        Stage::Between => {}
        _ => return Ok(false),
    }
    let Some(next) = report.count.checked_add(1) else {
        return Err(AllocError);
    };
    if number != next {
        return Ok(false);
    }
    match read_query(alloc, &report.problem, question) {
        Ok(query) => {
            report.count = next;
            *stage = Stage::Answer(asked(alloc, report.problem.ring, query));
            Ok(true)
        }
        Err(ProblemError::Fault { .. }) => Ok(false),
        Err(ProblemError::Memory) => Err(AllocError),
    }
}

/// The query at hand, of which nothing has been shown.
fn asked(alloc: Global, ring: Ring, query: Query) -> Asked
    ensures new { IsNew query result }
    ensures asked { IsAsked ring result }
{
    Asked {
        query,
        table: Table::new(alloc, ring),
        logs: Vec::new(alloc),
        finished: Vec::new(alloc),
        block: None,
        identity: Vec::new(alloc),
    }
}
