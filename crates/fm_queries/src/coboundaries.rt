// Whether a vector is a coboundary.
ghost use Rattle.std.specs.Prelude.{IfOk, IsTrue, length, ◌<◌, ◌^◌, ◌↔◌, ◌≡◌, ◌≤◌};
ghost use Rattle.fm_algebra.specs.PolynomialMatrices.{InImage, matrix_twist};
ghost use Rattle.fm_ext.specs.Exts.{differentials};
ghost use Rattle.fm_limit.specs.ResolvedIdeal.{differential, rank};
ghost use Rattle.fm_mat.specs.Matrices.{column_meaning};
ghost use Rattle.fm_plan.specs.Base.{flip};
ghost use Rattle.fm_queries.specs.Duals.{coboundary_work};
ghost use Rattle.fm_run.specs.Runs.{Follows};
ghost use Rattle.fm_vec.specs.Components.{AreOver};

use fm_chain::twisted_matrix;
use fm_ext::coboundaries;
use fm_poly::Poly;
use fm_resolve::Resolution;
use fm_run::{Stop, Work};
use fm_syz::is_in_image;
use std::alloc::Global;

/// Whether z is a coboundary of stage e: whether it lies in the image of `flip(d_i)^[q]` for q = p^e. It costs a twist, a completion of the
/// columns, and one division.
pub fn is_zero_at(
    alloc: Global,
    resolution: &Resolution,
    degree: u8,
    e: u8,
    z: &[Poly],
    work: &mut Work,
) -> Result<bool, Stop>
    requires degree { degree ≤ length resolution.now.next }
    requires over { AreOver resolution.now.first.matrix.ring z.now }
    requires length { let r = resolution.now.first.matrix.ring in
        length z.now ≡ rank r.prime r.vars (differentials r resolution.now) degree }
    requires room { length z.now < 2 ^ 32 }
    ensures follows { let r = resolution.now.first.matrix.ring in Follows (λ yes. yes) result work.old work.new
        (coboundary_work r e (flip r (differential r.prime r.vars (differentials r resolution.now) degree)) (column_meaning r z.now) work.old) }
    ensures decides { let r = resolution.now.first.matrix.ring in IfOk result (λ yes. IsTrue yes
        ↔ InImage r.prime r.vars (matrix_twist r.prime r.vars e (flip r (differential r.prime r.vars (differentials r resolution.now) degree)))
        (column_meaning r z.now)) }
{
    let boundaries = coboundaries(alloc, resolution, degree)?;
    let power = twisted_matrix(alloc, &boundaries, e)?;
    is_in_image(alloc, &power, z, work)
}
