// Columns above columns.
ghost use Rattle.std.specs.Prelude.{IfOk, length, ◌++◌, ◌≡◌};
ghost use Rattle.fm_mat.specs.Columns.{each_above};

use crate::column::Column;
use crate::copying::push_entries;
use std::alloc::{AllocError, Global};

/// Each column of a above the column of b with its number.
pub(crate) fn stacked(alloc: Global, a: &[Column], b: &[Column]) -> Result<Vec<Column>, AllocError>
    requires { length b.now ≡ length a.now }
    ensures { IfOk result (λ out. out.items ≡ each_above a.now b.now) }
{
    let mut out = Vec::with_capacity(alloc, a.len())?;
    let mut a = a;
    let mut b = b;
    'columns: loop {
        let Some((c, a_later)) = a.split_first() else {
            return Ok(out);
        };
        let Some((d, b_later)) = b.split_first() else {
            return Ok(out);
        };
        out.push(above(alloc, c, d)?)?;
        a = a_later;
        b = b_later;
    }
}

fn above(alloc: Global, c: &Column, d: &Column) -> Result<Column, AllocError>
    ensures { IfOk result (λ out. out ≡ c.now ++ d.now) }
{
    let mut entries = Vec::new(alloc);
    push_entries(alloc, c.entries(), &mut entries)?;
    push_entries(alloc, d.entries(), &mut entries)?;
    Ok(Column::new(entries))
}
