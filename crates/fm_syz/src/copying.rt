// Copies of members and of logs.
ghost use Rattle.std.specs.Prelude.{IfOk, map, ◌≡◌};
ghost use Rattle.fm_complete.specs.Bases.{entry_value};

use fm_complete::Entry;
use fm_vec::Vector;
use std::alloc::{AllocError, Global};

pub(crate) fn copied_members(alloc: Global, members: &[Vector]) -> Result<Vec<Vector>, AllocError>
    ensures { IfOk result (λ out. out.items ≡ members.now) }
{
    let mut out = Vec::with_capacity(alloc, members.len())?;
    let mut members = members;
    'members: loop {
        let Some((v, later)) = members.split_first() else {
            return Ok(out);
        };
        out.push(v.copy(alloc)?)?;
        members = later;
    }
}

pub(crate) fn copied(alloc: Global, log: &[Entry]) -> Result<Vec<Entry>, AllocError>
    ensures { IfOk result (λ out. map entry_value out.items ≡ map entry_value log.now) }
{
    let mut out = Vec::with_capacity(alloc, log.len())?;
    let mut log = log;
    'log: loop {
        let Some((entry, later)) = log.split_first() else {
            return Ok(out);
        };
        out.push(copied_entry(alloc, entry)?)?;
        log = later;
    }
}

fn copied_entry(alloc: Global, entry: &Entry) -> Result<Entry, AllocError>
    ensures { IfOk result (λ x. entry_value x ≡ entry_value entry.now) }
{
    Ok(Entry {
        start: entry.start,
        by: entry.by.to_vec(alloc)?,
        keep: entry.keep,
    })
}
