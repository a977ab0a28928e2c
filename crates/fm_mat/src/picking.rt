// Columns by their numbers.
ghost use Rattle.std.specs.Prelude.{IfOk, [], get_or, length, map, ◌-◌, ◌≡◌};
ghost use Rattle.fm_mat.specs.Columns.{AreNumbers};

use crate::column::Column;
use std::alloc::{AllocError, Global};

/// Copies of the columns with these numbers, counted from 1.
pub(crate) fn picked(
    alloc: Global,
    columns: &[Column],
    numbers: &[u32],
) -> Result<Vec<Column>, AllocError>
    requires { AreNumbers (length columns.now) numbers.now }
    ensures { IfOk result (λ out. out.items ≡ map (λ j. get_or columns.now (j - 1) []) numbers.now) }
{
    let mut out = Vec::with_capacity(alloc, numbers.len())?;
    let mut numbers = numbers;
    'numbers: loop {
        let Some((j, later)) = numbers.split_first() else {
            return Ok(out);
        };
        out.push(columns[*j as usize - 1].copy(alloc)?)?;
        numbers = later;
    }
}
