// Columns none of which lies in the span of the others.
ghost use Rattle.std.specs.List.{filter};
ghost use Rattle.std.specs.Prelude.{IfOk, List, length, map, ◌++◌, ◌<◌, ◌^◌, ◌∷◌, ◌↔◌, ◌≡◌, ℕ};
ghost use Rattle.fm_algebra.specs.PolynomialMatrices.{InImage};
ghost use Rattle.fm_complete.specs.Divisions.{terms_of};
ghost use Rattle.fm_complete.specs.Standing.{AreOfShape, values};
ghost use Rattle.fm_graphs.specs.Listing as listing;
ghost use Rattle.fm_graphs.specs.Listing.{VectorOf};
ghost use Rattle.fm_graphs.specs.Trims.{is_nonzero, trimmed};
ghost use Rattle.fm_poly.specs.declared.ring.Ring.{Ring};
ghost use Rattle.fm_mat.specs.Columns.{AreNumbers};
ghost use Rattle.fm_mat.specs.Matrices.{matrix_meaning};
ghost use Rattle.fm_run.specs.Runs.{Follows};
ghost use Rattle.fm_syz.specs.Numbers.{AreRising, column_at, columns_at, numbers_from};

use crate::choosing::nonzero;
use crate::column_vectors::vectors;
use crate::spanning::is_spanned;
use fm_complete::borrowed;
use fm_mat::Matrix;
use fm_poly::Ring;
use fm_run::{Stop, Work};
use fm_vec::Vector;
use std::alloc::{AllocError, Global};

/// The numbers of columns that span what all of them span, and none of which lies in the span of the others. From the last column to the
/// first, it drops each that lies in the span of the others still kept: each column costs a completion of these, and one division.
pub fn trim(alloc: Global, a: &Matrix, work: &mut Work) -> Result<Vec<u32>, Stop>
    ensures follows { let r = a.now.ring in Follows (λ ks. ks.items) result work.old work.new
        (trimmed r (column_at r (matrix_meaning r a.now)) (numbers_from 1 (length a.now.columns)) work.old) }
    ensures rising { IfOk result (λ ks. AreRising 0 (length a.now.columns) ks.items) }
    ensures numbers { IfOk result (λ ks. AreNumbers (length a.now.columns) ks.items) }
    ensures same { let r = a.now.ring in let A = matrix_meaning r a.now in IfOk result (λ ks. (v : VectorOf r)
        → InImage r.prime r.vars (columns_at r A ks.items) v ↔ InImage r.prime r.vars A v) }
    ensures free { let r = a.now.ring in let A = matrix_meaning r a.now in IfOk result (λ ks. (former later : List ℕ) (k : ℕ)
        → ks.items ≡ former ++ k ∷ later → ¬ (InImage r.prime r.vars (columns_at r A (former ++ later)) (column_at r A k))) }
{
    let ring = a.ring();
    let made = vectors(alloc, ring, a.rows(), a.columns())?;
    let others = borrowed(alloc, &made)?;
    let numbers = numbers_to(alloc, a.cols())?;
    trim_vectors(alloc, ring, a.rows(), others, numbers, work)
}

/// The same of the columns that are not zero.
pub(crate) fn trim_nonzero(alloc: Global, a: &Matrix, work: &mut Work) -> Result<Vec<u32>, Stop>
    ensures follows { (r : Ring) → a.now.ring ≡ r → let A = matrix_meaning r a.now in Follows (λ ks. ks.items) result work.old work.new
        (trimmed r (column_at r A) (filter (λ k. is_nonzero r (column_at r A k)) (numbers_from 1 (length a.now.columns))) work.old) }
    ensures rising { IfOk result (λ ks. AreRising 0 (length a.now.columns) ks.items) }
{
    let ring = a.ring();
    let rows = a.rows();
    let made = vectors(alloc, ring, rows, a.columns())?;
    let chosen = nonzero(alloc, &made)?;
    trim_vectors(alloc, ring, rows, chosen.vectors, chosen.numbers, work)
}

/// The numbers of the vectors that are kept, from the last to the first.
fn trim_vectors(
    alloc: Global,
    ring: Ring,
    rows: u32,
    vectors: Vec<&Vector>,
    all: Vec<u32>,
    work: &mut Work,
) -> Result<Vec<u32>, Stop>
    requires shape { AreOfShape ring rows (values vectors.items) }
    requires count { length vectors.items ≡ length all.items }
    requires few { length all.items < 2 ^ 32 }
    ensures { (column : ℕ → VectorOf ring) → terms_of (values vectors.entry.items) ≡ map (λ k. listing.terms_of ring (column k)) all.items
        → Follows (λ ks. ks.items) result work.old work.new (trimmed ring column all.items work.old) }
{
    let mut others = vectors;
    let mut numbers = all;
    let mut left = numbers.len();
    'trim: while left > 0 {
        left -= 1;
        let v = others.remove(left);
        match is_spanned(alloc, ring, rows, &others, v, work) {
            Ok(true) => {
                numbers.remove(left);
            }
            Ok(false) => others.insert(left, v)?,
            Err(stop) => return Err(stop),
        }
    }
    Ok(numbers)
}

/// The numbers from 1.
fn numbers_to(alloc: Global, count: u32) -> Result<Vec<u32>, AllocError>
    ensures { IfOk result (λ out. out.items ≡ numbers_from 1 count) }
{
    let mut out = Vec::with_capacity(alloc, count as usize)?;
    for k in 0..count {
        out.push(k + 1)?;
    }
    Ok(out)
}
