// That the entries of matrices are polynomials in the form in which they are printed: each is read.
ghost use Rattle.std.specs.Prelude.{All, ℕ};
ghost use Rattle.fm_mat.specs.Matrices.{AreColumns};
ghost use Rattle.fm_poly.specs.declared.ring.Ring.{Ring as RingValue};
ghost use Rattle.fm_text.specs.SumOfTerms.{IsPolynomialOf};
ghost use Rattle.fm_vec.specs.Components.{AreOver};

use fm_mat::{Column, Matrix};
use fm_poly::Poly;

/// Reads the entries of a matrix.
pub(crate) fn tell_matrix(m: &Matrix)
    ensures { All (All (IsPolynomialOf m.now.ring)) m.now.columns }
{
    tell_columns(m.columns());
}

/// Reads the entries of columns.
pub(crate) fn tell_columns(columns: &[Column])
    ensures { (r : RingValue) (rows : ℕ) → AreColumns r rows columns.now → All (All (IsPolynomialOf r)) columns.now }
{
    let mut left = columns;
    'columns: loop {
        let Some((column, later)) = left.split_first() else {
            return;
        };
        tell_entries(column.entries());
        left = later;
    }
}

/// Reads polynomials.
pub(crate) fn tell_entries(entries: &[Poly])
    ensures { (r : RingValue) → AreOver r entries.now → All (IsPolynomialOf r) entries.now }
{
    let mut left = entries;
    'entries: loop {
        let Some((entry, later)) = left.split_first() else {
            return;
        };
        let _terms = entry.terms();
        left = later;
    }
}
