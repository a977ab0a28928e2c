// Whether a vector lies in the span of others, or in the image of a matrix.
ghost use Rattle.std.specs.Prelude.{IfOk, IsTrue, List, length, map, ◌<◌, ◌^◌, ◌↔◌, ◌≡◌};
ghost use Rattle.fm_algebra.specs.PolynomialMatrices.{InImage};
ghost use Rattle.fm_complete.specs.Divisions.{terms_of};
ghost use Rattle.fm_complete.specs.Standing.{AreOfShape, values};
ghost use Rattle.fm_graphs.specs.Listing as listing;
ghost use Rattle.fm_graphs.specs.Listing.{VectorOf};
ghost use Rattle.fm_graphs.specs.Trims.{spanned};
ghost use Rattle.fm_mat.specs.Matrices.{column_meaning, columns_meaning, matrix_meaning};
ghost use Rattle.fm_run.specs.Runs.{Follows};
ghost use Rattle.fm_vec.specs.Components.{AreOver};

use crate::column_vectors::vectors;
use fm_complete::{borrowed, complete, rest_of};
use fm_mat::Matrix;
use fm_poly::{Poly, Ring};
use fm_run::{Stop, Work};
use fm_vec::Vector;
use std::alloc::Global;

/// Whether a completion of the others divides v.
pub(crate) fn is_spanned(
    alloc: Global,
    ring: Ring,
    rows: u32,
    others: &[&Vector],
    v: &Vector,
    work: &mut Work,
) -> Result<bool, Stop>
    requires others { AreOfShape ring rows (values others.now) }
    requires few { length others.now < 2 ^ 32 }
    requires ring { v.now.ring ≡ ring }
    requires rows { v.now.rows ≡ rows }
    ensures { (columns : List (VectorOf ring)) (w : VectorOf ring) → terms_of (values others.now) ≡ map (listing.terms_of ring) columns
        → v.now.terms ≡ listing.terms_of ring w → Follows (λ yes. yes) result work.old work.new (spanned ring columns w work.old) }
{
    let basis = match complete(alloc, ring, rows, others, work) {
        Ok(basis) => basis,
        Err(stop) => return Err(stop),
    };
    let x = match rest_of(alloc, &basis.members, v, work) {
        Ok(x) => x,
        Err(stop) => return Err(stop),
    };
    Ok(x.rest.head().is_none())
}

/// Whether v lies in the image of the matrix. It costs a completion of the columns, and one division by its members.
pub fn is_in_image(alloc: Global, a: &Matrix, v: &[Poly], work: &mut Work) -> Result<bool, Stop>
    requires over { AreOver a.now.ring v.now }
    requires rows { length v.now ≡ a.now.rows }
    requires room { length v.now < 2 ^ 32 }
    ensures follows { let r = a.now.ring in Follows (λ yes. yes) result work.old work.new
        (spanned r (columns_meaning r a.now.columns) (column_meaning r v.now) work.old) }
    ensures decides { let r = a.now.ring in IfOk result (λ yes.
        IsTrue yes ↔ InImage r.prime r.vars (matrix_meaning r a.now) (column_meaning r v.now)) }
{
    let ring = a.ring();
    let made = vectors(alloc, ring, a.rows(), a.columns())?;
    let others = borrowed(alloc, &made)?;
    let vector = Vector::from_column(alloc, ring, v)?;
    let _head = vector.head();
    is_spanned(alloc, ring, a.rows(), &others, &vector, work)
}
