// Whether a local cohomology module is zero.
ghost use Rattle.std.specs.Prelude.{IfOk, length, ◌+◌, ◌<◌, ◌^◌, ◌≡◌, ◌≤◌};
ghost use Rattle.fm_ext.specs.Exts.{ring_of};
ghost use Rattle.fm_mat.specs.Matrices.{column_meaning};
ghost use Rattle.fm_plan.specs.Following.{FollowsPlan};
ghost use Rattle.fm_plan.specs.Queries.{ask_zero, plan};
ghost use Rattle.fm_queries.specs.Bases.{stable_graph};
ghost use Rattle.fm_queries.specs.Founds.{zero_value};
ghost use Rattle.fm_syz.specs.Insides.{HasColumns};
ghost use Rattle.fm_vec.specs.Components.{AreOver};

use crate::base::{Base, compute_base};
use fm_poly::{Poly, Ring};
use fm_run::{Name, Side, Stopped, Task, Work, in_task};
use fm_syz::{Inside, whole_of};
use std::alloc::Global;

/// Whether the stable kernel is everything, where the module is zero.
#[derive(Drop)]
pub struct Zero {
    pub base: Base,
    pub whole: Inside,
}

/// The plan of the query `zero`, in this degree of the ideal of the generators.
pub fn decide_zero(
    alloc: Global,
    ring: Ring,
    generators: &[Poly],
    degree: u8,
    work: &mut Work,
) -> Result<Zero, Stopped>
    requires some { 1 ≤ ring.vars }
    requires few { ring.vars ≤ 8 }
    requires generators { AreOver ring generators.now }
    requires room { length generators.now + 1 < 2 ^ 32 }
    requires degree { degree < 255 }
    ensures follows { let fs = column_meaning ring generators.now in FollowsPlan (zero_value ring degree fs) result work.old work.new
        (plan ring (ask_zero degree fs) work.old) }
    ensures ring { IfOk result (λ x. ring_of x.base.ext ≡ ring) }
    ensures columns { IfOk result (λ x. HasColumns ring (length (stable_graph x.base).matrix.columns) x.whole) }
{
    let base = compute_base(alloc, Side::Alone, ring, generators, degree, work)?;
    let task = Task {
        side: Side::Alone,
        name: Name::Whole,
        number: 0,
    };
    let whole = in_task(task, whole_of(alloc, base.stable_kernel(), work))?;
    Ok(Zero { base, whole })
}
