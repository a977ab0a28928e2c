// Rows behind the head of a report, by where they stand.
ghost use Rattle.std.specs.Prelude.{IfOk, false, ◌≡◌};
ghost use Rattle.fm_judge.specs.Judging.{State, judged_line};
ghost use Rattle.fm_lines.specs.Rows.{IsRowOver, row_line};
ghost use Rattle.fm_problem.specs.Sound.{IsProblem, IsQueryOf};
ghost use Rattle.fm_problem.specs.declared.problem.Problem.{Problem as ProblemValue};
ghost use Rattle.fm_asked.specs.States.{IsAsked};
ghost use Rattle.fm_asked.specs.declared.asked.Asked.{Asked as AskedValue};
ghost use Rattle.fm_check.specs.Lines.{Turns};
ghost use Rattle.fm_check.specs.Reports.{IsStage, StandsAt, Tells};
ghost use Rattle.fm_check.specs.Standings.{IsCertificate, Says, StandsIn, is_end, parts_of};
ghost use Rattle.fm_check.specs.declared.report.Report.{Report as ReportValue};
ghost use Rattle.fm_check.specs.declared.stage.Stage.TheVariants as stages;

use crate::answers::ending_row;
use crate::certificate::Certificate;
use crate::certificates::row_under_answer;
use crate::report::Report;
use crate::stage::Stage;
use fm_asked::Asked;
use fm_conditions::{Refused, Why};
use fm_lines::Row;
use fm_places::Place;
use std::alloc::Global;

/// Where the next line stands after a row that stands there.
pub(crate) fn next_stage(
    alloc: Global,
    report: &mut Report,
    stage: Stage,
    row: Row<'_>,
) -> Result<Stage, Refused>
    requires problem { IsProblem report.old.problem }
    requires stage { IsStage report.old.problem stage }
    requires over { IsRowOver report.old.problem.ring row }
    ensures judged { (s : State) → Tells report.old s → StandsAt report.old.problem stage s
        → Turns report.new result (judged_line s (row_line row.entry)) }
    ensures problem { report.new.problem ≡ report.old.problem }
    ensures stage { IfOk result (IsStage report.old.problem) }
{
    match stage {
        Stage::Between => end_report(&row),
        Stage::Answer(asked) => end_query(alloc, report, asked, &row),
        Stage::Certificate(asked, certificate) => {
            row_of_certificate(alloc, report, asked, certificate, row)
        }
        Stage::Done(_) => end_certificate(report.count, &row),
        Stage::End => Err(Refused::Bad(Why::Form)),
    }
}

/// `end report`; no other row stands between queries.
fn end_report(row: &Row<'_>) -> Result<Stage, Refused>
    ensures judged { (p : ReportValue) (s : State) → Tells p s → StandsAt p.problem stages.Between s
        → Turns p result (judged_line s (row_line row.now)) }
    ensures stage { (q : ProblemValue) → IfOk result (IsStage q) }
{
    match row {
        Row::EndReport => Ok(Stage::End),
        _ => Err(Refused::Bad(Why::Form)),
    }
}

/// The end of a query, which counts as one with an answer or as one without.
fn end_query(
    alloc: Global,
    report: &mut Report,
    asked: Asked,
    row: &Row<'_>,
) -> Result<Stage, Refused>
    requires problem { IsProblem report.old.problem }
    requires query { IsQueryOf report.old.problem asked.query }
    requires asked { IsAsked report.old.problem.ring asked }
    requires over { IsRowOver report.old.problem.ring row.now }
    ensures judged { (s : State) → Tells report.old s → StandsAt report.old.problem (stages.Answer asked) s
        → Turns report.new result (judged_line s (row_line row.now)) }
    ensures problem { report.new.problem ≡ report.old.problem }
    ensures stage { IfOk result (IsStage report.old.problem) }
{
    let Row::Ended(ending) = row else {
        return Err(Refused::Bad(Why::Form));
    };
    match ending_row(alloc, &report.problem, &asked, ending) {
        Ok(Some(certificate)) => {
            let Some(verdicts) = report.verdicts.checked_add(1) else {
                return Err(Refused::Memory);
            };
            report.verdicts = verdicts;
            Ok(Stage::Certificate(asked, certificate))
        }
        Ok(None) => {
            let Some(passed) = report.passed.checked_add(1) else {
                return Err(Refused::Memory);
            };
            report.passed = passed;
            Ok(Stage::Done(asked))
        }
        Err(refused) => Err(refused),
    }
}

/// A row of a certificate.
fn row_of_certificate(
    alloc: Global,
    report: &Report,
    asked: Asked,
    certificate: Certificate,
    row: Row<'_>,
) -> Result<Stage, Refused>
    requires problem { IsProblem report.now.problem }
    requires asked { IsAsked report.now.problem.ring asked }
    requires certificate { IsCertificate report.now.problem (parts_of asked) certificate }
    requires place { is_end certificate.place ≡ false }
    requires over { IsRowOver report.now.problem.ring row }
    ensures judged { (s : State) → Tells report.now s → StandsAt report.now.problem (stages.Certificate asked certificate) s
        → Turns report.now result (judged_line s (row_line row.entry)) }
    ensures stage { IfOk result (IsStage report.now.problem) }
{
    let mut asked = asked;
    let mut certificate = certificate;
    match row_under_answer(
        alloc,
        report.version,
        &report.problem,
        &mut asked,
        &mut certificate,
        row,
    ) {
        Ok(()) => Ok(stage_with(asked, certificate)),
        Err(refused) => Err(refused),
    }
}

/// In a certificate; behind its last place `done` follows.
fn stage_with(asked: Asked, certificate: Certificate) -> Stage
    ensures stands { (q : ProblemValue) (s : State) → IsCertificate q (parts_of asked) certificate → Says q asked s → StandsIn q (parts_of asked) certificate s.stage → StandsAt q result s }
    ensures stage { (q : ProblemValue) → IsAsked q.ring asked → IsCertificate q (parts_of asked) certificate → IsStage q result }
{
    match certificate.place {
        Place::End => Stage::Done(asked),
        _ => Stage::Certificate(asked, certificate),
    }
}

/// `done` with the number of the query.
fn end_certificate(count: u64, row: &Row<'_>) -> Result<Stage, Refused>
    ensures judged { (p : ReportValue) (a : AskedValue) (s : State) → p.count ≡ count → Tells p s → StandsAt p.problem (stages.Done a) s
        → Turns p result (judged_line s (row_line row.now)) }
    ensures stage { (q : ProblemValue) → IfOk result (IsStage q) }
{
    let Row::Done { number } = row else {
        return Err(Refused::Bad(Why::Form));
    };
    if *number != count {
        return Err(Refused::Bad(Why::Form));
    }
    Ok(Stage::Between)
}
