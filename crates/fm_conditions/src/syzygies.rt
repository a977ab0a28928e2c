// Syzygies by the members of a log.
ghost use Rattle.std.specs.Prelude.{IfOk, length, map, take, ◌+◌, ◌<◌, ◌^◌, ◌≡◌, ◌≤◌};
ghost use Rattle.fm_complete.specs.Divisions.{AreMembers, terms_of};
ghost use Rattle.fm_groebner.specs.Syzygies as syzygies;
ghost use Rattle.fm_groebner.specs.Syzygies.{lower_members};
ghost use Rattle.fm_mat.specs.Matrices.{AreColumns, columns_meaning, matrix_meaning};
ghost use Rattle.fm_poly.specs.declared.ring.Ring.{Ring as RingValue};

use fm_mat::{Column, Matrix};
use fm_poly::Ring;
use fm_syz::lower_blocks;
use fm_vec::Vector;
use std::alloc::{AllocError, Global};

/// The first rows of the syzygies of g by the members, as many as are asked for.
pub(crate) fn first_syzygies(
    alloc: Global,
    g: &Matrix,
    members: &[Vector],
    rows: u32,
) -> Result<Matrix, AllocError>
    requires members { AreMembers g.now.ring (g.now.rows + length g.now.columns) members.now }
    requires rows { rows ≤ length g.now.columns }
    requires few { length (lower_members g.now.rows (terms_of members.now)) < 2 ^ 32 }
    ensures ring { IfOk result (λ m. m.ring ≡ g.now.ring) }
    ensures value { (r : RingValue) → g.now.ring ≡ r → IfOk result (λ m. matrix_meaning r m
        ≡ syzygies.first_rows r.prime r.vars rows (syzygies.syzygies r.prime r.vars (matrix_meaning r g.now) (terms_of members.now))) }
{
    let columns = lower_blocks(alloc, g.ring(), g.rows(), g.cols(), members)?;
    let first = first_entries(alloc, g.ring(), g.cols(), rows, &columns)?;
    Ok(Matrix::new(g.ring(), rows, first))
}

// The first entries of each column.
fn first_entries(
    alloc: Global,
    ring: Ring,
    long: u32,
    count: u32,
    columns: &[Column],
) -> Result<Vec<Column>, AllocError>
    requires shape { AreColumns ring long columns.now }
    requires count { count ≤ long }
    ensures shape { IfOk result (λ out. AreColumns ring count out.items) }
    ensures value { IfOk result (λ out. columns_meaning ring out.items ≡ map (take count) (columns_meaning ring columns.now)) }
{
    let mut out = Vec::with_capacity(alloc, columns.len())?;
    let mut columns = columns;
    'columns: loop {
        let Some((c, later)) = columns.split_first() else {
            return Ok(out);
        };
        let (first, _rest) = c.entries().split_at(count as usize);
        out.push(Column::copy_of(alloc, first)?)?;
        columns = later;
    }
}
