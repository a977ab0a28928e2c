// Rows in logs.
ghost use Rattle.std.specs.Prelude.{List, OnOk, true, ◌≡◌};
ghost use Rattle.fm_judge.specs.Judging.{State, judged_line};
ghost use Rattle.fm_lines.specs.Rows.{row_line};
ghost use Rattle.fm_lines.specs.declared.row.Row.TheVariants as rows;
ghost use Rattle.fm_problem.specs.declared.problem.Problem.{Problem};
ghost use Rattle.fm_report.specs.Parts.{Part};
ghost use Rattle.fm_asked.specs.OpenLogs.{is_within_log};
ghost use Rattle.fm_asked.specs.States.{IsAsked};
ghost use Rattle.fm_check.specs.Standings.{IsCertificate, IsReplaying, Leads, Says, StandsIn, parts_of};
ghost use Rattle.fm_asked.specs.declared.asked.Asked.{Asked as AskedValue};

use crate::certificate::Certificate;
use fm_asked::{Asked, end_row, enter_row};
use fm_conditions::Refused;
use fm_lines::Row;
use std::alloc::Global;

/// A row in a log, in a report of this version.
pub(crate) fn on_log(
    alloc: Global,
    version: u64,
    asked: &mut Asked,
    certificate: &mut Certificate,
    row: &Row<'_>,
) -> Result<(), Refused>
    requires replaying { IsReplaying certificate.old.log }
    ensures leads { (q : Problem) (s : State) → IsAsked q.ring asked.old → IsCertificate q (parts_of asked.old) certificate.old
        → Says q asked.old s → s.version ≡ version → StandsIn q (parts_of asked.old) certificate.old s.stage
        → Leads q asked.new certificate.new s result (judged_line s (row_line row.now)) }
    ensures asked { (q : Problem) → IsAsked q.ring asked.old → IsCertificate q (parts_of asked.old) certificate.old → OnOk result (IsAsked q.ring asked.new) }
    ensures certificate { (q : Problem) → IsAsked q.ring asked.old → IsCertificate q (parts_of asked.old) certificate.old
        → OnOk result (IsCertificate q (parts_of asked.new) certificate.new) }
{
    match row {
        Row::EndLog => on_end(asked, certificate),
        row => entry_row(alloc, version, certificate, row),
    }
}

/// An entry; any other row has no place in a log.
fn entry_row(
    alloc: Global,
    version: u64,
    certificate: &mut Certificate,
    row: &Row<'_>,
) -> Result<(), Refused>
    requires open { IsReplaying certificate.old.log }
    requires within { is_within_log row.now ≡ true }
    ensures leads { (q : Problem) (a : AskedValue) (s : State) → IsCertificate q (parts_of a) certificate.old
        → Says q a s → s.version ≡ version → StandsIn q (parts_of a) certificate.old s.stage
        → Leads q a certificate.new s result (judged_line s (row_line row.now)) }
    ensures certificate { (q : Problem) (ps : List Part) → IsCertificate q ps certificate.old → OnOk result (IsCertificate q ps certificate.new) }
{
    match &mut certificate.log {
        Some(log) => enter_row(alloc, version, log, row),
        None => unreachable!(),
    }
}

/// The end of a log, which is kept.
fn on_end(asked: &mut Asked, certificate: &mut Certificate) -> Result<(), Refused>
    requires open { IsReplaying certificate.old.log }
    ensures leads { (q : Problem) (s : State) → IsAsked q.ring asked.old → IsCertificate q (parts_of asked.old) certificate.old
        → Says q asked.old s → StandsIn q (parts_of asked.old) certificate.old s.stage
        → Leads q asked.new certificate.new s result (judged_line s (row_line rows.EndLog)) }
    ensures asked { (q : Problem) → IsAsked q.ring asked.old → IsCertificate q (parts_of asked.old) certificate.old → OnOk result (IsAsked q.ring asked.new) }
    ensures certificate { (q : Problem) → IsAsked q.ring asked.old → IsCertificate q (parts_of asked.old) certificate.old
        → OnOk result (IsCertificate q (parts_of asked.new) certificate.new) }
{
    let Some(log) = certificate.log.take() else {
        unreachable!();
    };
    end_row(asked, log)
}
