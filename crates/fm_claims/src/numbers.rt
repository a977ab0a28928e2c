// Numbers of parts, of logs, of members and of columns, which count from 1.
ghost use Rattle.std.specs.Prelude.{IfOk, IfSome, List, OnOk, [], length, option_map, suc, true, ◌++◌, ◌<◌, ◌∷◌, ◌^◌, ℕ, ◌≡◌, ◌≤◌};
ghost use Rattle.fm_poly.specs.declared.ring.Ring.{Ring as RingValue};
ghost use Rattle.fm_report.specs.Parts.{Part};
ghost use Rattle.fm_report.specs.Sheets.{Block as SheetBlock, numbered};
ghost use Rattle.fm_parts.specs.Conditions.{Condition as ConditionValue, Log, outside};
ghost use Rattle.fm_parts.specs.Replays.{are_numbers, is_number};
ghost use Rattle.fm_parts.specs.Shapes.{columns_of};
ghost use Rattle.fm_judge.specs.Claims as claims;
ghost use Rattle.fm_judge.specs.Goals.{Goal as GoalValue};
ghost use Rattle.fm_pres.specs.Tables.{part_at, parts_in};
ghost use Rattle.fm_conditions.specs.Meanings.{log_at, log_of, logs_of};
ghost use Rattle.fm_pres.specs.Blocks.{parts_at};

use crate::found::{Excluding, Generating};
use fm_conditions::KeptLog;
use fm_lines::Generated;
use fm_pres::Table;
use std::alloc::{AllocError, Global};

/// The number, or 0, which is the number of nothing, for one of more than 32 bits.
pub(crate) fn small(n: u64) -> u32
    ensures same { n < 2 ^ 32 → result ≡ n }
    ensures none { 2 ^ 32 ≤ n → result ≡ 0 }
{
    if n > u64::from(u32::MAX) {
        return 0;
    }
    n as u32
}

/// The next number. One that does not fit answers as it does where memory is short.
pub(crate) fn next(n: u64) -> Result<u64, AllocError>
    ensures { IfOk result (λ m. m ≡ suc n) }
{
    match n.checked_add(1) {
        Some(m) => Ok(m),
        None => Err(AllocError),
    }
}

/// Number n of the table, where there is such a part.
pub(crate) fn part(table: &Table, n: u64) -> Option<u32>
    requires few { length (parts_in table.now) < 2 ^ 32 }
    ensures part { numbered (parts_in table.now) n ≡ option_map (part_at (parts_in table.now)) result }
    ensures there { IfSome result (λ k. is_number (parts_in table.now) k ≡ true) }
{
    let k = small(n);
    if table.is_part(k) { Some(k) } else { None }
}

/// The entry after the first n of a list of numbers of parts.
pub(crate) fn nth(numbers: &[u32], n: u64) -> Option<u32>
    ensures part { (ps : List Part) → numbered (parts_at ps numbers.now) (suc n) ≡ option_map (part_at ps) result }
    ensures there { (ps : List Part) → are_numbers ps numbers.now ≡ true → IfSome result (λ k. is_number ps k ≡ true) }
{
    if n >= numbers.len() as u64 {
        return None;
    }
    Some(numbers[n as usize])
}

/// Number n of the logs, where there is such a log.
pub(crate) fn log(logs: &[KeptLog], n: u64) -> Option<u32>
    requires few { length logs.now < 2 ^ 32 }
    ensures log { (ps : List Part) → numbered (logs_of ps logs.now) n ≡ option_map (log_at (logs_of ps logs.now)) result }
    ensures there { IfSome result (λ k. is_number logs.now k ≡ true) }
{
    if n == 0 || n > logs.len() as u64 {
        return None;
    }
    Some(n as u32)
}

/// The numbers of a log, of X and of W, where they are there.
pub(crate) fn generating(table: &Table, logs: &[KeptLog], shown: &Generated) -> Option<Generating>
    requires few { length (parts_in table.now) < 2 ^ 32 }
    requires few_logs { length logs.now < 2 ^ 32 }
    ensures generated { let ps = parts_in table.now in let ls = logs_of ps logs.now in
        (r : RingValue) (g : GoalValue) (b : SheetBlock) (says : Log → Part → Part → ConditionValue) (more : List ConditionValue)
        → claims.generated r g b ps ls says shown.now.log shown.now.x shown.now.w more
        ≡ option_map (λ s. says (log_at ls s.log) (part_at ps s.x) (part_at ps s.w) ∷ more) result }
    ensures there { IfSome result (λ s. (is_number logs.now s.log ≡ true) × (is_number (parts_in table.now) s.x ≡ true)
        × (is_number (parts_in table.now) s.w ≡ true)) }
{
    let log = log(logs, shown.log)?;
    let x = part(table, shown.x)?;
    let w = part(table, shown.w)?;
    Some(Generating { log, x, w })
}

/// Whether these are numbers of members of the log.
pub(crate) fn are_members(log: &KeptLog, numbers: &[u64]) -> bool
    ensures { (ps : List Part) → result ≡ are_numbers (log_of ps log.now).members numbers.now }
{
    let count = log.members.len() as u64;
    let mut left = numbers;
    'numbers: loop {
        let Some((k, later)) = left.split_first() else {
            return true;
        };
        if *k == 0 || *k > count {
            return false;
        }
        left = later;
    }
}

/// Appends the numbers. One of more than 32 bits answers as it does where memory is short.
fn push_numbers(numbers: &[u64], out: &mut Vec<u32>) -> Result<(), AllocError>
    ensures { OnOk result (out.new.items ≡ out.old.items ++ numbers.now) }
{
    let mut left = numbers;
    'numbers: loop {
        let Some((k, later)) = left.split_first() else {
            return Ok(());
        };
        if *k > u64::from(u32::MAX) {
            return Err(AllocError);
        }
        out.push(*k as u32)?;
        left = later;
    }
}

/// The numbers with 32 bits each. One of more bits answers as it does where memory is short.
pub(crate) fn small_numbers(alloc: Global, numbers: &[u64]) -> Result<Vec<u32>, AllocError>
    ensures { IfOk result (λ v. v.items ≡ numbers.now) }
{
    let mut out = Vec::with_capacity(alloc, numbers.len())?;
    push_numbers(numbers, &mut out)?;
    Ok(out)
}

/// The numbers of a log, of one of so many columns, and of members, where they are there. Members past 2^32 - 1 answer as where memory is short.
pub(crate) fn excluding(
    alloc: Global,
    logs: &[KeptLog],
    columns: u32,
    n: u64,
    column: u64,
    by: &[u64],
) -> Result<Option<Excluding>, AllocError>
    requires few { length logs.now < 2 ^ 32 }
    ensures excluded { (ps : List Part) (r : RingValue) (g : GoalValue) (b : SheetBlock) (e : ℕ) (A V : Part) → columns_of V ≡ columns
        → IfOk result (λ o. claims.excluded r g b ps (logs_of ps logs.now) e A V n column by.now
        ≡ option_map (λ x. outside (log_at (logs_of ps logs.now) x.log) e A V x.column x.by.items ∷ []) o) }
    ensures there { IfOk result (λ o. IfSome o (λ x. (is_number logs.now x.log ≡ true) × (1 ≤ x.column))) }
{
    let Some(log) = log(logs, n) else {
        return Ok(None);
    };
    if column == 0 || column > u64::from(columns) || !are_members(&logs[log as usize - 1], by) {
        return Ok(None);
    }
    let by = small_numbers(alloc, by)?;
    Ok(Some(Excluding {
        log,
        column: column as u32,
        by,
    }))
}
