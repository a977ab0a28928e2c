// Vectors through the transposes of twisted matrices.
ghost use Rattle.std.specs.Prelude.{IfOk, IsErrOf, OnOk, false, length, true, ◌<◌, ◌^◌, ◌≡◌};
ghost use Rattle.fm_mat.specs.Matrices.{column_meaning, matrix_meaning};
ghost use Rattle.fm_queries.specs.Duals.{dual_column, dual_fits};
ghost use Rattle.fm_vec.specs.Components.{AreOver};

use fm_mat::{Column, Matrix};
use fm_poly::{Poly, PolyError};
use fm_resolve::one_column;
use std::alloc::Global;

/// The column `flip(a^[q]) * z` for q = p^e. It costs a twist, a flip and a product.
pub(crate) fn dual_image(alloc: Global, a: &Matrix, e: u8, z: &[Poly]) -> Result<Matrix, PolyError>
    requires over { AreOver a.now.ring z.now }
    requires rows { length z.now ≡ a.now.rows }
    requires room { length z.now < 2 ^ 32 }
    ensures ring { IfOk result (λ m. m.ring ≡ a.now.ring) }
    ensures rows { IfOk result (λ m. m.rows ≡ length a.now.columns) }
    ensures count { IfOk result (λ m. length m.columns ≡ 1) }
    ensures value { let r = a.now.ring in IfOk result (λ m.
        matrix_meaning r m ≡ dual_column r e (matrix_meaning r a.now) (column_meaning r z.now)) }
    ensures fits { let r = a.now.ring in OnOk result (dual_fits r e (matrix_meaning r a.now) (column_meaning r z.now) ≡ true) }
    ensures exponent { let r = a.now.ring in IsErrOf result PolyError.Exponent
        → dual_fits r e (matrix_meaning r a.now) (column_meaning r z.now) ≡ false }
{
    let power = a.twist(alloc, e)?;
    let flipped = power.flip(alloc)?;
    let column = one_column(alloc, a.ring(), Column::copy_of(alloc, z)?)?;
    flipped.times(alloc, &column)
}
