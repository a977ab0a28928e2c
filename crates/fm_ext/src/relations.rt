// The relations of the cocycles.
ghost use Rattle.std.specs.Prelude.{IfOk, length, ◌≡◌, ◌≤◌};
ghost use Rattle.fm_ext.specs.Exts.{differentials};
ghost use Rattle.fm_graphs.specs.Trims.{preimage_run};
ghost use Rattle.fm_limit.specs.ResolvedIdeal.{differential, rank};
ghost use Rattle.fm_mat.specs.Matrices.{matrix_meaning};
ghost use Rattle.fm_plan.specs.Base.{flip};
ghost use Rattle.fm_run.specs.Runs.{Follows};
ghost use Rattle.fm_syz.specs.GeneratorValues.{preimage_meaning};

use fm_mat::Matrix;
use fm_resolve::Resolution;
use fm_run::{Stop, Work};
use fm_syz::{Preimage, preimage};
use std::alloc::{AllocError, Global};

/// Generators of all w with `z * w` in the image of `flip(d_i)`.
pub(crate) fn relations(
    alloc: Global,
    resolution: &Resolution,
    degree: u8,
    z: &Matrix,
    work: &mut Work,
) -> Result<Preimage, Stop>
    requires some { 1 ≤ resolution.now.first.matrix.ring.vars }
    requires few { resolution.now.first.matrix.ring.vars ≤ 8 }
    requires degree { degree ≤ length resolution.now.next }
    requires ring { z.now.ring ≡ resolution.now.first.matrix.ring }
    requires rows { let r = resolution.now.first.matrix.ring in z.now.rows ≡ rank r.prime r.vars (differentials r resolution.now) degree }
    ensures follows { let r = resolution.now.first.matrix.ring in Follows (preimage_meaning r) result work.old work.new
        (preimage_run r (matrix_meaning r z.now) (flip r (differential r.prime r.vars (differentials r resolution.now) degree)) work.old) }
    ensures ring { IfOk result (λ p. p.generators.graph.matrix.ring ≡ resolution.now.first.matrix.ring) }
    ensures rows { IfOk result (λ p. p.generators.graph.matrix.rows ≡ length z.now.columns) }
{
    let below = coboundaries(alloc, resolution, degree)?;
    preimage(alloc, z, &below, work)
}

/// The matrix `flip(d_i)`, whose image is the coboundaries of stage 0; d_0 is the matrix without rows from P_0 to 0.
pub fn coboundaries(
    alloc: Global,
    resolution: &Resolution,
    degree: u8,
) -> Result<Matrix, AllocError>
    requires degree { degree ≤ length resolution.now.next }
    ensures ring { IfOk result (λ m. m.ring ≡ resolution.now.first.matrix.ring) }
    ensures rows { let r = resolution.now.first.matrix.ring in
        IfOk result (λ m. m.rows ≡ rank r.prime r.vars (differentials r resolution.now) degree) }
    ensures value { let r = resolution.now.first.matrix.ring in
        IfOk result (λ m. matrix_meaning r m ≡ flip r (differential r.prime r.vars (differentials r resolution.now) degree)) }
{
    if degree == 0 {
        return Ok(Matrix::new(resolution.ring(), 1, Vec::new(alloc)));
    }
    resolution.differential(usize::from(degree)).flip(alloc)
}
