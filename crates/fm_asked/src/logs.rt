// Logs that are being replayed.
ghost use Rattle.std.specs.Prelude.{IfOk, IfSome, List, OnErr, OnOk, false, length, true, ◌+◌, ◌<◌, ◌^◌, ◌≡◌, ◌≤◌};
ghost use Rattle.fm_complete.specs.Bases.{start_value};
ghost use Rattle.fm_complete.specs.Divisions.{terms_of};
ghost use Rattle.fm_complete.specs.Standing.{AreOfShape};
ghost use Rattle.fm_conditions.specs.Meanings.{IsKeptLog};
ghost use Rattle.fm_conditions.specs.Reasons.{Judges, reason_of as reason};
ghost use Rattle.fm_groebner.specs.Logs as logs;
ghost use Rattle.fm_judge.specs.Goals.{Goal};
ghost use Rattle.fm_judge.specs.Judging as judging;
ghost use Rattle.fm_judge.specs.Judging.{State, end_log_line, log_line};
ghost use Rattle.fm_judge.specs.Places.{Place};
ghost use Rattle.fm_lines.specs.Rows.{row_line};
ghost use Rattle.fm_parts.specs.Replays.{BadEntry, Replay as Replayed, is_number, nothing_replayed, replay_entry};
ghost use Rattle.fm_parts.specs.Shapes.{columns_of, rows_of};
ghost use Rattle.fm_poly.specs.declared.ring.Ring.{Ring as RingValue};
ghost use Rattle.fm_pres.specs.Tables.{part_at, parts_in};
ghost use Rattle.fm_replay.specs.Kept.{Keeps};
ghost use Rattle.fm_replay.specs.Refusals.{reason_of};
ghost use Rattle.fm_report.specs.Parts.{Part};
ghost use Rattle.fm_report.specs.Sheets.{ring_in};
ghost use Rattle.fm_asked.specs.OpenLogs.{AreInputsIf, IsEnded, IsEntered, IsLogOf, IsOpen, IsReplayed, entry_on, is_within_log, narrowed_start, with_log};

use crate::narrowing::{all_within, narrowed, numbered};
use fm_complete::{Entry, Start};
use fm_conditions::{KeptLog, Refused, Why};
use fm_lines::Row;
use fm_poly::{PolyError, Ring};
use fm_pres::Table;
use fm_replay::{Fault, Refusal, Replay};
use fm_syz::graph_columns;
use fm_vec::Vector;
use std::alloc::Global;

/// A log that is being replayed: the number of the part whose graph is completed, the columns of this graph, and what was replayed.
#[derive(Drop)]
pub struct OpenLog {
    pub part: u32,
    pub inputs: Vec<Vector>,
    pub replay: Replay,
}

/// The line `log` with these numbers, after so many logs. The value of the part is formed.
pub fn open_log(
    alloc: Global,
    ring: Ring,
    table: &mut Table,
    logs: usize,
    number: u64,
    part: u64,
) -> Result<OpenLog, Refused>
    requires ring { table.old.ring ≡ ring }
    requires some { 1 ≤ ring.vars }
    requires few { ring.vars ≤ 8 }
    ensures judged { (s : State) (g : Goal) (p : Place) → s.sheet.parts ≡ parts_in table.old → ring_in s.sheet.head ≡ ring → length s.logs ≡ logs
        → Judges (λ log. with_log s g p (part_at (parts_in table.old) log.part) nothing_replayed) result (log_line s g p number part) }
    ensures open { IfOk result (IsOpen ring (parts_in table.old)) }
    ensures fresh { IfOk result (λ log. Keeps log.replay nothing_replayed) }
    ensures table { table.new ≡ table.old }
{
    if number == 0 {
        return Err(Refused::Bad(Why::Form));
    }
    if number - 1 != logs as u64 {
        return Err(Refused::Bad(Why::Form));
    }
    let Some(part) = numbered(table, part) else {
        return Err(Refused::Bad(Why::Reference));
    };
    let (rows, columns) = table.shape(part);
    let Some(height) = rows.checked_add(columns) else {
        return Err(Refused::Bad(Why::Shape));
    };
    match inputs_of(alloc, ring, table, part) {
        Ok(inputs) => Ok(OpenLog {
            part,
            inputs,
            replay: Replay::new(alloc, ring, height),
        }),
        Err(refused) => Err(refused),
    }
}

/// The columns of the graph of the value of a part.
fn inputs_of(
    alloc: Global,
    ring: Ring,
    table: &mut Table,
    part: u32,
) -> Result<Vec<Vector>, Refused>
    requires ring { table.old.ring ≡ ring }
    requires some { 1 ≤ ring.vars }
    requires few { ring.vars ≤ 8 }
    requires number { is_number (parts_in table.old) part ≡ true }
    requires room { rows_of (part_at (parts_in table.old) part) + columns_of (part_at (parts_in table.old) part) < 2 ^ 32 }
    ensures inputs { AreInputsIf ring (part_at (parts_in table.old) part) result }
    ensures table { table.new ≡ table.old }
{
    let value = match table.value(alloc, part) {
        Ok(value) => value,
        Err(PolyError::Exponent) => return Err(Refused::Bad(Why::Exponents)),
        Err(PolyError::Memory) => return Err(Refused::Memory),
    };
    match graph_columns(alloc, &value) {
        Ok(inputs) => Ok(inputs),
        Err(_) => Err(Refused::Memory),
    }
}

/// A row in a log that isn't its end; version 1 of reports has no `skip`. After a refusal the log is as it was.
pub fn enter_row(
    alloc: Global,
    version: u64,
    log: &mut OpenLog,
    row: &Row<'_>,
) -> Result<(), Refused>
    requires shape { AreOfShape log.old.replay.ring log.old.replay.rows log.old.inputs.items }
    requires few { length log.old.inputs.items < 2 ^ 32 }
    ensures entered { is_within_log row.now ≡ true → (s : State) (g : Goal) (p : Place) (o : judging.OpenLog) → s.version ≡ version → IsLogOf s o log.old
        → IsEntered s g p o.part log.new.replay result (entry_on s g p o (row_line row.now)) }
    ensures open { (r : RingValue) (ps : List Part) → IsOpen r ps log.old → IsOpen r ps log.new }
    ensures same { (log.new.part ≡ log.old.part) × (log.new.inputs ≡ log.old.inputs) }
    ensures unchanged { OnErr result (log.new ≡ log.old) }
{
    match row {
        Row::Input { input, by, keep } => {
            enter(alloc, log, Start::Input(narrowed(*input)), by, *keep)
        }
        Row::Pair {
            first,
            second,
            by,
            keep,
        } => enter(
            alloc,
            log,
            Start::Pair(narrowed(*first), narrowed(*second)),
            by,
            *keep,
        ),
        Row::Skip { first, second, by } => {
            if version != 2 {
                return Err(Refused::Bad(Why::Form));
            }
            let start = Start::Skip(narrowed(*first), narrowed(*second), narrowed(*by));
            enter(alloc, log, start, &[], false)
        }
        _ => Err(Refused::Bad(Why::Form)),
    }
}

/// One entry, whose numbers are narrowed. Where a log has 2^32 members or more, memory is short.
fn enter(
    alloc: Global,
    log: &mut OpenLog,
    start: Start,
    by: &[u64],
    keep: bool,
) -> Result<(), Refused>
    requires shape { AreOfShape log.old.replay.ring log.old.replay.rows log.old.inputs.items }
    requires few { length log.old.inputs.items < 2 ^ 32 }
    ensures entered { (w : logs.Start) → narrowed_start w ≡ start_value start → (s : Replayed) → Keeps log.old.replay s
        → IsReplayed log.new.replay result (replay_entry log.old.replay.ring (terms_of log.old.inputs.items) s (record { start = w; by = by.now; keep = keep })) }
    ensures open { (r : RingValue) (ps : List Part) → IsOpen r ps log.old → IsOpen r ps log.new }
    ensures same { (log.new.part ≡ log.old.part) × (log.new.inputs ≡ log.old.inputs) }
    ensures unchanged { OnErr result (log.new ≡ log.old) }
{
    if log.replay.members().len() > u32::MAX as usize {
        return Err(Refused::Memory);
    }
    let by = match all_within(alloc, u32::MAX, by) {
        Ok(by) => by,
        Err(_) => return Err(Refused::Memory),
    };
    let entry = Entry { start, by, keep };
    match log.replay.enter(alloc, &log.inputs, &entry) {
        Ok(()) => Ok(()),
        Err(Refusal::Memory) => Err(Refused::Memory),
        Err(Refusal::Bad(fault)) => Err(Refused::Bad(why(fault))),
    }
}

fn why(fault: Fault) -> Why
    ensures { reason result ≡ reason_of BadEntry fault }
{
    match fault {
        Fault::Reference => Why::Reference,
        Fault::Step => Why::BadEntry,
        Fault::Exponents => Why::Exponents,
    }
}

/// The log at its end; None where it isn't whole.
pub fn end_log(log: OpenLog) -> Option<KeptLog>
    requires few { length log.inputs.items < 2 ^ 32 }
    ensures ended { (s : State) (g : Goal) (p : Place) (o : judging.OpenLog) → IsLogOf s o log → IsEnded s g p o.part result (end_log_line s g p o) }
    ensures part { IfSome result (λ l. l.part ≡ log.part) }
    ensures kept { (r : RingValue) (ps : List Part) → IsOpen r ps log → IfSome result (IsKeptLog r ps) }
{
    let OpenLog {
        part,
        inputs,
        replay,
    } = log;
    if !replay.is_whole(&inputs) {
        return None;
    }
    Some(KeptLog {
        part,
        members: replay.into_members(),
    })
}
