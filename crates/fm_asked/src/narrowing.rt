// Numbers of lines as numbers that tables and logs count by.
ghost use Rattle.std.specs.Prelude.{IfOk, map, ◌≡◌};
ghost use Rattle.fm_pres.specs.Tables.{parts_in};
ghost use Rattle.fm_asked.specs.Narrowing as definitions;
ghost use Rattle.fm_asked.specs.Narrowing.{IsNumbered};

use fm_pres::Table;
use std::alloc::{AllocError, Global};

/// The number of a part, where there is one with it.
pub(crate) fn numbered(table: &Table, number: u64) -> Option<u32>
    ensures { IsNumbered (parts_in table.now) number result }
{
    if number == 0 {
        return None;
    }
    if number > table.len() as u64 {
        return None;
    }
    Some(number as u32)
}

/// The number, where it has 32 bits; else 0, which is the number of nothing.
pub(crate) fn narrowed(number: u64) -> u32
    ensures { result ≡ definitions.narrowed number }
{
    within(u32::MAX, number)
}

fn within(bound: u32, number: u64) -> u32
    ensures { result ≡ definitions.within bound number }
{
    if number > bound as u64 {
        return 0;
    }
    number as u32
}

/// Each number that isn't above the bound, and 0 for each other one.
pub(crate) fn all_within(alloc: Global, bound: u32, numbers: &[u64]) -> Result<Vec<u32>, AllocError>
    ensures { IfOk result (λ v. v.items ≡ map (definitions.within bound) numbers.now) }
{
    let mut kept = Vec::new(alloc);
    let mut left = numbers;
    'numbers: loop {
        let Some((number, later)) = left.split_first() else {
            return Ok(kept);
        };
        kept.push(within(bound, *number))?;
        left = later;
    }
}
