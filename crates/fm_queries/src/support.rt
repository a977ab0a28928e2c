// The support of a local cohomology module.
ghost use Rattle.std.specs.Prelude.{IfOk, length, ◌+◌, ◌<◌, ◌^◌, ◌≡◌, ◌≤◌};
ghost use Rattle.fm_ext.specs.Exts.{ring_of};
ghost use Rattle.fm_mat.specs.Matrices.{column_meaning};
ghost use Rattle.fm_plan.specs.Following.{FollowsPlan};
ghost use Rattle.fm_plan.specs.Queries.{ask_support, plan};
ghost use Rattle.fm_queries.specs.Founds.{support_value};
ghost use Rattle.fm_vec.specs.Components.{AreOver};

use crate::base::{Base, compute_base};
use fm_poly::{Poly, Ring};
use fm_run::{Side, Stopped, Work};
use fm_support::annihilator;
use fm_syz::Preimage;
use std::alloc::Global;

/// A row of generators of the annihilator of the cokernel of the stable kernel.
#[derive(Drop)]
pub struct Support {
    pub base: Base,
    pub annihilator: Preimage,
}

/// The plan of the query `support`, in this degree of the ideal of the generators.
pub fn compute_support(
    alloc: Global,
    ring: Ring,
    generators: &[Poly],
    degree: u8,
    work: &mut Work,
) -> Result<Support, Stopped>
    requires some { 1 ≤ ring.vars }
    requires few { ring.vars ≤ 8 }
    requires generators { AreOver ring generators.now }
    requires room { length generators.now + 1 < 2 ^ 32 }
    requires degree { degree < 255 }
    ensures follows { let fs = column_meaning ring generators.now in FollowsPlan (support_value ring degree fs) result work.old work.new
        (plan ring (ask_support degree fs) work.old) }
    ensures ring { IfOk result (λ x. ring_of x.base.ext ≡ ring) }
    ensures row { IfOk result (λ x. x.annihilator.generators.graph.matrix.ring ≡ ring) }
{
    let base = compute_base(alloc, Side::Alone, ring, generators, degree, work)?;
    let annihilator = annihilator(alloc, base.stable_kernel(), work)?;
    Ok(Support { base, annihilator })
}
