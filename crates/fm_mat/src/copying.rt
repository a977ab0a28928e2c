// Copies of entries and of columns.
ghost use Rattle.std.specs.Prelude.{OnOk, ◌++◌, ◌≡◌};

use crate::column::Column;
use fm_poly::Poly;
use std::alloc::{AllocError, Global};

/// Appends copies of the entries.
pub(crate) fn push_entries(
    alloc: Global,
    entries: &[Poly],
    out: &mut Vec<Poly>,
) -> Result<(), AllocError>
    ensures { OnOk result (out.new.items ≡ out.old.items ++ entries.now) }
{
    let mut entries = entries;
    'entries: loop {
        let Some((f, later)) = entries.split_first() else {
            return Ok(());
        };
        out.push(f.copy(alloc)?)?;
        entries = later;
    }
}

/// Appends copies of the columns.
pub(crate) fn push_columns(
    alloc: Global,
    columns: &[Column],
    out: &mut Vec<Column>,
) -> Result<(), AllocError>
    ensures { OnOk result (out.new.items ≡ out.old.items ++ columns.now) }
{
    let mut columns = columns;
    'columns: loop {
        let Some((c, later)) = columns.split_first() else {
            return Ok(());
        };
        out.push(c.copy(alloc)?)?;
        columns = later;
    }
}
