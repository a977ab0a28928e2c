// The cocycles of stage 0.
ghost use Rattle.std.specs.Prelude.{IfOk, length, ◌≡◌, ◌≤◌};
ghost use Rattle.fm_ext.specs.Exts.{differentials};
ghost use Rattle.fm_graphs.specs.Trims.{kernel_run};
ghost use Rattle.fm_limit.specs.ResolvedIdeal.{matrix_at, rank};
ghost use Rattle.fm_plan.specs.Base.{flip};
ghost use Rattle.fm_resolve.specs.Resolutions.{IsResolution};
ghost use Rattle.fm_run.specs.Runs.{Follows};
ghost use Rattle.fm_syz.specs.GeneratorValues.{preimage_meaning};

use fm_resolve::Resolution;
use fm_run::{Stop, Work};
use fm_syz::{Preimage, kernel};
use std::alloc::Global;

/// Generators of the kernel of `flip(d_(i+1))`.
pub(crate) fn cocycles(
    alloc: Global,
    resolution: &Resolution,
    degree: u8,
    work: &mut Work,
) -> Result<Preimage, Stop>
    requires some { 1 ≤ resolution.now.first.matrix.ring.vars }
    requires few { resolution.now.first.matrix.ring.vars ≤ 8 }
    requires degree { degree ≤ length resolution.now.next }
    ensures follows { let r = resolution.now.first.matrix.ring in Follows (preimage_meaning r) result work.old work.new
        (kernel_run r (flip r (matrix_at r.prime r.vars (differentials r resolution.now) degree)) work.old) }
    ensures ring { IfOk result (λ p. p.generators.graph.matrix.ring ≡ resolution.now.first.matrix.ring) }
    ensures rows { let r = resolution.now.first.matrix.ring in
        IfOk result (λ p. p.generators.graph.matrix.rows ≡ rank r.prime r.vars (differentials r resolution.now) degree) }
    ensures resolution { IsResolution resolution.now }
{
    let flip = resolution
        .differential(usize::from(degree) + 1)
        .flip(alloc)?;
    kernel(alloc, flip, work)
}
