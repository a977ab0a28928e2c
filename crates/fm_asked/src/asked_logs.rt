// Logs under the query at hand.
ghost use Rattle.std.specs.Prelude.{IfOk, OnOk, length, ◌<◌, ◌^◌, ◌≡◌, ◌≤◌};
ghost use Rattle.fm_conditions.specs.Meanings.{logs_of};
ghost use Rattle.fm_conditions.specs.Reasons.{Judges};
ghost use Rattle.fm_judge.specs.Goals.{Goal};
ghost use Rattle.fm_judge.specs.Judging as judging;
ghost use Rattle.fm_judge.specs.Judging.{State, end_log_line, log_line};
ghost use Rattle.fm_judge.specs.Places.{Place};
ghost use Rattle.fm_parts.specs.Replays.{nothing_replayed};
ghost use Rattle.fm_poly.specs.declared.ring.Ring.{Ring as RingValue};
ghost use Rattle.fm_pres.specs.Tables.{part_at, parts_in};
ghost use Rattle.fm_replay.specs.Kept.{Keeps};
ghost use Rattle.fm_report.specs.Sheets.{ring_in};
ghost use Rattle.fm_asked.specs.OpenLogs.{IsOpen, with_log};
ghost use Rattle.fm_asked.specs.States.{IsAsked, SaysAsked, SaysLog, with_logs};

use crate::asked::Asked;
use crate::logs::{OpenLog, end_log, open_log};
use fm_conditions::{Refused, Why};
use fm_poly::Ring;
use std::alloc::Global;

/// The line `log` under the query at hand.
pub fn log_row(
    alloc: Global,
    ring: Ring,
    asked: &mut Asked,
    number: u64,
    part: u64,
) -> Result<OpenLog, Refused>
    requires asked { IsAsked ring asked.old }
    requires some { 1 ≤ ring.vars }
    requires few { ring.vars ≤ 8 }
    ensures judged { (s : State) (g : Goal) (p : Place) → SaysAsked asked.old s → ring_in s.sheet.head ≡ ring
        → Judges (λ log. with_log s g p (part_at (parts_in asked.old.table) log.part) nothing_replayed) result (log_line s g p number part) }
    ensures open { IfOk result (IsOpen ring (parts_in asked.old.table)) }
    ensures fresh { IfOk result (λ log. Keeps log.replay nothing_replayed) }
    ensures unchanged { asked.new ≡ asked.old }
{
    let logs = asked.logs.len();
    open_log(alloc, ring, &mut asked.table, logs, number, part)
}

/// The line `end` of a log under the query at hand, which keeps the log where it is whole.
pub fn end_row(asked: &mut Asked, log: OpenLog) -> Result<(), Refused>
    requires few { length log.inputs.items < 2 ^ 32 }
    ensures judged { (r : RingValue) (s : State) (g : Goal) (p : Place) (o : judging.OpenLog) → SaysAsked asked.old s → ring_in s.sheet.head ≡ r
        → IsOpen r (parts_in asked.old.table) log → SaysLog (parts_in asked.old.table) o log
        → Judges (λ _. with_logs s g p (logs_of (parts_in asked.old.table) asked.new.logs.items)) result (end_log_line s g p o) }
    ensures says { (s : State) (g : Goal) (p : Place) → SaysAsked asked.old s
        → SaysAsked asked.new (with_logs s g p (logs_of (parts_in asked.old.table) asked.new.logs.items)) }
    ensures asked { (r : RingValue) → IsAsked r asked.old → IsOpen r (parts_in asked.old.table) log → IsAsked r asked.new }
    ensures table { asked.new.table ≡ asked.old.table }
{
    match end_log(log) {
        Some(kept) => {
            asked.logs.push(kept)?;
            Ok(())
        }
        None => Err(Refused::Bad(Why::BadLog)),
    }
}
