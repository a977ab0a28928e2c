// Rows that end queries.
ghost use Rattle.std.specs.Prelude.{IfOk, None, ◌≡◌};
ghost use Rattle.fm_claims.specs.Goals.{IsQueryOver};
ghost use Rattle.fm_judge.specs.Judging.{State, at_answer, judged_line};
ghost use Rattle.fm_lines.specs.Rows.{IsEndingOver, ending_line, row_line};
ghost use Rattle.fm_lines.specs.declared.row.Row.TheVariants as rows;
ghost use Rattle.fm_places.specs.Meanings.{AreIdealsOver};
ghost use Rattle.fm_check.specs.Standings.{Answers, IsCertificateIf, Says, is_answer_line, parts_of};

use crate::certificate::Certificate;
use fm_asked::{Asked, may_end};
use fm_claims::goal_for;
use fm_conditions::{Refused, Why};
use fm_lines::Ending;
use fm_places::first_place;
use fm_problem::Problem;
use std::alloc::Global;

/// The end of a query: a certificate begins under an answer, and none where there is no answer.
pub(crate) fn ending_row(
    alloc: Global,
    problem: &Problem,
    asked: &Asked,
    ending: &Ending<'_>,
) -> Result<Option<Certificate>, Refused>
    requires ideals { AreIdealsOver problem.now.ring problem.now.ideals }
    requires query { IsQueryOver problem.now.ring asked.now.query }
    requires ending { IsEndingOver problem.now.ring ending.now }
    ensures answers { (s : State) → Says problem.now asked.now s → s.sheet.answer ≡ None → s.stage ≡ at_answer
        → Answers problem.now asked.now s result (judged_line s (row_line (rows.Ended ending.now))) }
    ensures certificate { IfOk result (IsCertificateIf problem.now (parts_of asked.now)) }
{
    if !is_answer(ending) {
        if !may_end(&asked.query, ending) {
            return Err(Refused::Bad(Why::Form));
        }
        return Ok(None);
    }
    let Some(goal) = goal_for(alloc, problem, &asked.query, ending)? else {
        return Err(Refused::Bad(Why::Form));
    };
    let place = first_place(&goal.aim);
    Ok(Some(Certificate {
        goal,
        place,
        log: None,
    }))
}

/// Whether a query ends so with an answer.
fn is_answer(ending: &Ending<'_>) -> bool
    ensures { result ≡ is_answer_line (ending_line ending.now) }
{
    match ending {
        Ending::Budget { .. } => false,
        Ending::Exponents { .. } => false,
        Ending::WrongLength { .. } => false,
        Ending::NotCocycle { .. } => false,
        Ending::NotContained { .. } => false,
        _ => true,
    }
}
