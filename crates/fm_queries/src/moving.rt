// Moves of classes.
ghost use Rattle.std.specs.Prelude.{IfOk, IsErrOf, OnOk, false, length, true, ◌<◌, ◌^◌, ◌≡◌};
ghost use Rattle.fm_ext.specs.Exts.{IsExt, cocycles_matrix, ideal_of, ring_of};
ghost use Rattle.fm_lift.specs.Lifts.{matrices_meaning};
ghost use Rattle.fm_limit.specs.Classes.{moved_once};
ghost use Rattle.fm_limit.specs.ResolvedIdeal.{matrix_at};
ghost use Rattle.fm_mat.specs.Matrices.{column_meaning, matrix_meaning};
ghost use Rattle.fm_queries.specs.Duals.{move_fits};
ghost use Rattle.fm_vec.specs.Components.{AreOver};

use crate::duals::dual_image;
use fm_ext::Ext;
use fm_mat::{Column, Matrix};
use fm_poly::{Poly, PolyError};
use std::alloc::Global;

/// One move of the class (e, z), to stage e + 1: `flip(theta_i^[q]) * z` for q = p^e. It costs a twist, a flip and a product.
pub fn move_class(alloc: Global, ext: &Ext, e: u8, z: &[Poly]) -> Result<Column, PolyError>
    requires over { AreOver (ring_of ext.now) z.now }
    requires length { length z.now ≡ (cocycles_matrix ext.now).rows }
    requires room { length z.now < 2 ^ 32 }
    ensures moved { let y = ext.now in let r = ring_of y in IfOk result (λ w. column_meaning r w
        ≡ moved_once r.prime r.vars (length y.resolution.next) (ideal_of r y) e (column_meaning r z.now)) }
    ensures over { IfOk result (AreOver (ring_of ext.now)) }
    ensures length { IfOk result (λ w. length w ≡ length z.now) }
    ensures fits { let r = ring_of ext.now in OnOk result (move_fits r ext.now e (column_meaning r z.now) ≡ true) }
    ensures exponent { let r = ring_of ext.now in IsErrOf result PolyError.Exponent
        → move_fits r ext.now e (column_meaning r z.now) ≡ false }
{
    let image = dual_image(alloc, theta(ext), e, z)?;
    let columns = image.columns();
    let moved = columns[0].copy(alloc)?;
    Ok(moved)
}

// theta_i.
fn theta(ext: &Ext) -> &Matrix
    ensures ring { result.now.ring ≡ ring_of ext.entry.now }
    ensures value { let y = ext.entry.now in let r = ring_of y in
        matrix_at r.prime r.vars (matrices_meaning r y.lift) (length y.resolution.next) ≡ matrix_meaning r result.now }
    ensures ext { IsExt ext.entry.now }
{
    let degree = ext.resolution().next().len();
    let lift = ext.lift();
    &lift[degree]
}
