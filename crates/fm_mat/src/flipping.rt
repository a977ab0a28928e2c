// Rows as columns.
ghost use Rattle.std.specs.Prelude.{IfOk, length, map, ◌<◌, ◌≡◌};
ghost use Rattle.fm_algebra.specs.Matrix.{component, listed};
ghost use Rattle.fm_algebra.specs.Polynomials.{polynomials};
ghost use Rattle.fm_mat.specs.Columns.{row_of};
ghost use Rattle.fm_mat.specs.Matrices.{AreColumns, column_meaning, columns_meaning};
ghost use Rattle.fm_poly.specs.Polys.{meaning};
ghost use Rattle.fm_vec.specs.Components.{AreOver};

use crate::column::Column;
use fm_poly::{Poly, Ring};
use std::alloc::{AllocError, Global};

/// The rows of the matrix with these columns.
pub(crate) fn flipped(
    alloc: Global,
    ring: Ring,
    rows: u32,
    columns: &[Column],
) -> Result<Vec<Column>, AllocError>
    requires { AreColumns ring rows columns.now }
    ensures columns { IfOk result (λ out. AreColumns ring (length columns.now) out.items) }
    ensures count { IfOk result (λ out. length out.items ≡ rows) }
    ensures value { IfOk result (λ out. columns_meaning ring out.items
        ≡ listed rows (λ i. row_of ring.prime ring.vars i (columns_meaning ring columns.now))) }
{
    let mut out = Vec::with_capacity(alloc, rows as usize)?;
    for i in 0..rows {
        out.push(Column::new(row(alloc, ring, rows, i, columns)?))?;
    }
    Ok(out)
}

/// The entries in row i, counted from 0.
fn row(
    alloc: Global,
    ring: Ring,
    rows: u32,
    i: u32,
    columns: &[Column],
) -> Result<Vec<Poly>, AllocError>
    requires columns { AreColumns ring rows columns.now }
    requires within { i < rows }
    ensures over { IfOk result (λ out. AreOver ring out.items) }
    ensures count { IfOk result (λ out. length out.items ≡ length columns.now) }
    ensures value { IfOk result (λ out. column_meaning ring out.items
        ≡ row_of ring.prime ring.vars i (columns_meaning ring columns.now)) }
{
    let mut out = Vec::with_capacity(alloc, columns.len())?;
    let mut columns = columns;
    'columns: loop {
        let Some((c, later)) = columns.split_first() else {
            return Ok(out);
        };
        out.push(entry(alloc, ring, c.entries(), i)?)?;
        columns = later;
    }
}

fn entry(alloc: Global, ring: Ring, entries: &[Poly], i: u32) -> Result<Poly, AllocError>
    requires over { AreOver ring entries.now }
    requires within { i < length entries.now }
    ensures over { IfOk result (λ h. h.ring ≡ ring) }
    ensures value { IfOk result (λ h. meaning ring h.terms
        ≡ component (polynomials ring.prime ring.vars) (column_meaning ring entries.now) i) }
{
    let copy = entries[i as usize].copy(alloc)?;
    Ok(copy)
}
