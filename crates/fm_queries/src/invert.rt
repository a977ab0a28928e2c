// Whether a polynomial inverts a local cohomology module.
ghost use Rattle.std.specs.Prelude.{IfOk, length, ◌+◌, ◌<◌, ◌^◌, ◌≡◌, ◌≤◌};
ghost use Rattle.fm_ext.specs.Exts.{ring_of};
ghost use Rattle.fm_mat.specs.Matrices.{column_meaning};
ghost use Rattle.fm_plan.specs.Following.{FollowsPlan};
ghost use Rattle.fm_plan.specs.Queries.{ask_invert, plan};
ghost use Rattle.fm_poly.specs.Polys.{meaning};
ghost use Rattle.fm_queries.specs.Bases.{stable_graph};
ghost use Rattle.fm_queries.specs.Founds.{invert_value};
ghost use Rattle.fm_support.specs.Inverting.{IsInvertedOver};
ghost use Rattle.fm_vec.specs.Components.{AreOver};

use crate::base::{Base, compute_base};
use fm_poly::{Poly, Ring};
use fm_run::{Side, Stopped, Work};
use fm_support::{Inverted, invert};
use std::alloc::Global;

/// The least power of the polynomial that annihilates the cokernel of the stable kernel, or that none does.
#[derive(Drop)]
pub struct Inverting {
    pub base: Base,
    pub inverted: Inverted,
}

/// The plan of the query `invert`, for f in this degree of the ideal of the generators.
pub fn decide_inverting(
    alloc: Global,
    ring: Ring,
    generators: &[Poly],
    degree: u8,
    f: &Poly,
    work: &mut Work,
) -> Result<Inverting, Stopped>
    requires some { 1 ≤ ring.vars }
    requires few { ring.vars ≤ 8 }
    requires generators { AreOver ring generators.now }
    requires room { length generators.now + 1 < 2 ^ 32 }
    requires degree { degree < 255 }
    requires polynomial { f.now.ring ≡ ring }
    ensures follows { let fs = column_meaning ring generators.now in let g = meaning ring f.now.terms in
        FollowsPlan (invert_value ring degree fs g) result work.old work.new (plan ring (ask_invert degree fs g) work.old) }
    ensures ring { IfOk result (λ x. ring_of x.base.ext ≡ ring) }
    ensures over { IfOk result (λ x. IsInvertedOver (stable_graph x.base) x.inverted) }
{
    let base = compute_base(alloc, Side::Alone, ring, generators, degree, work)?;
    let inverted = invert(alloc, base.stable_kernel(), f, work)?;
    Ok(Inverting { base, inverted })
}
