// Conditions of lines, judged.
ghost use Rattle.std.specs.Prelude.{map, true, ◌≡◌, ◌≤◌};
ghost use Rattle.std.specs.List.{list_all};
ghost use Rattle.fm_parts.specs.Conditions as definitions;
ghost use Rattle.fm_pres.specs.Tables.{parts_in};
ghost use Rattle.fm_conditions.specs.Meanings.{AreConditions, AreFormable, AreKeptLogs, condition_of, logs_of};
ghost use Rattle.fm_conditions.specs.Reasons.{Judges};

use crate::holding::holds;
use crate::shaping::shapes_fit;
use crate::{Condition, KeptLog, Refused, Why};
use fm_pres::Table;
use std::alloc::Global;

/// Whether the conditions of a line hold: the shapes of all of them come first, then each in its order, and each value is formed when it is reached.
pub fn judge(
    alloc: Global,
    table: &mut Table,
    logs: &[KeptLog],
    conditions: &[Condition],
) -> Result<(), Refused>
    requires some { 1 ≤ table.old.ring.vars }
    requires few { table.old.ring.vars ≤ 8 }
    requires logs { AreKeptLogs table.old.ring (parts_in table.old) logs.now }
    requires conditions { AreConditions table.old.ring (parts_in table.old) logs.now conditions.now }
    requires formable { let r = table.old.ring in let ps = parts_in table.old in AreFormable r ps (logs_of ps logs.now) conditions.now }
    ensures judges { let r = table.old.ring in let ps = parts_in table.old in
        Judges (λ _. tt) result (definitions.judged r (map (condition_of r ps (logs_of ps logs.now)) conditions.now)) }
    ensures unchanged { table.new ≡ table.old }
{
    if !all_fit(table, logs, conditions) {
        return Err(Refused::Bad(Why::Shape));
    }
    all_hold(alloc, table, logs, conditions)
}

// Whether the shapes of all of them fit.
fn all_fit(table: &Table, logs: &[KeptLog], conditions: &[Condition]) -> bool
    requires logs { AreKeptLogs table.now.ring (parts_in table.now) logs.now }
    requires conditions { AreConditions table.now.ring (parts_in table.now) logs.now conditions.now }
    ensures { let r = table.now.ring in let ps = parts_in table.now in
        result ≡ list_all definitions.shapes_fit (map (condition_of r ps (logs_of ps logs.now)) conditions.now) }
{
    let mut left = conditions;
    'conditions: loop {
        let Some((c, later)) = left.split_first() else {
            return true;
        };
        if !shapes_fit(table, logs, c) {
            return false;
        }
        left = later;
    }
}

// Whether conditions whose shapes fit hold, each in its order.
fn all_hold(
    alloc: Global,
    table: &mut Table,
    logs: &[KeptLog],
    conditions: &[Condition],
) -> Result<(), Refused>
    requires some { 1 ≤ table.old.ring.vars }
    requires few { table.old.ring.vars ≤ 8 }
    requires logs { AreKeptLogs table.old.ring (parts_in table.old) logs.now }
    requires conditions { AreConditions table.old.ring (parts_in table.old) logs.now conditions.now }
    requires formable { let r = table.old.ring in let ps = parts_in table.old in AreFormable r ps (logs_of ps logs.now) conditions.now }
    requires fit { let r = table.old.ring in let ps = parts_in table.old in
        list_all definitions.shapes_fit (map (condition_of r ps (logs_of ps logs.now)) conditions.now) ≡ true }
    ensures judges { let r = table.old.ring in let ps = parts_in table.old in
        Judges (λ _. tt) result (definitions.all_hold r (map (condition_of r ps (logs_of ps logs.now)) conditions.now)) }
    ensures unchanged { table.new ≡ table.old }
{
    let mut left = conditions;
    'conditions: loop {
        let Some((c, later)) = left.split_first() else {
            return Ok(());
        };
        match holds(alloc, table, logs, c) {
            Ok(()) => {}
            Err(refused) => return Err(refused),
        }
        left = later;
    }
}
