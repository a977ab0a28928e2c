// The columns of a matrix as vectors.
ghost use Rattle.std.specs.Prelude.{IfOk, length, map, ◌≡◌};
ghost use Rattle.fm_complete.specs.Divisions as divisions;
ghost use Rattle.fm_mat.specs.Matrices.{AreColumns, columns_meaning};
ghost use Rattle.fm_graphs.specs.Listing.{terms_of};
ghost use Rattle.fm_complete.specs.Standing.{AreOfShape};

use fm_mat::Column;
use fm_poly::Ring;
use fm_vec::Vector;
use std::alloc::{AllocError, Global};

/// The columns as vectors.
pub(crate) fn vectors(
    alloc: Global,
    ring: Ring,
    rows: u32,
    columns: &[Column],
) -> Result<Vec<Vector>, AllocError>
    requires { AreColumns ring rows columns.now }
    ensures terms { IfOk result (λ out. divisions.terms_of out.items ≡ map (terms_of ring) (columns_meaning ring columns.now)) }
    ensures shape { IfOk result (λ out. AreOfShape ring rows out.items) }
{
    let mut out = Vec::with_capacity(alloc, columns.len())?;
    let mut columns = columns;
    'columns: loop {
        let Some((c, later)) = columns.split_first() else {
            return Ok(out);
        };
        let v = Vector::from_column(alloc, ring, c.entries())?;
        let _head = v.head();
        out.push(v)?;
        columns = later;
    }
}
