// Whether a class is zero in a local cohomology module.
ghost use Rattle.std.specs.Prelude.{IfErr, IfOk, None, length, map, suc, take, ◌+◌, ◌<◌, ◌^◌, ◌≡◌, ◌≤◌, ℕ};
ghost use Rattle.fm_chain.specs.Chains.{member_graphs};
ghost use Rattle.fm_chain.specs.Stages.{IsKilledOver, killed_value};
ghost use Rattle.fm_ext.specs.Exts.{cocycles_matrix, differentials, ring_of};
ghost use Rattle.fm_limit.specs.ResolvedIdeal.{matrix_at};
ghost use Rattle.fm_mat.specs.Matrices.{column_meaning};
ghost use Rattle.fm_plan.specs.Following.{FollowsPlan};
ghost use Rattle.fm_plan.specs.Queries.{ask_class, chain_graphs, plan, stages};
ghost use Rattle.fm_queries.specs.Bases.{IsBase, base_meaning, relations_graph};
ghost use Rattle.fm_queries.specs.Founds.{FollowsQuery, class_test, class_value};
ghost use Rattle.fm_resolve.specs.Resolutions.{IsResolution};
ghost use Rattle.fm_vec.specs.Components.{AreOver};

use crate::base::{Base, compute_base_of};
use crate::testing::test_class;
use crate::unanswered::Unanswered;
use fm_chain::{Killed, coordinates, kill_stage};
use fm_poly::{Poly, Ring};
use fm_resolve::{Resolution, resolve};
use fm_run::{Name, Side, Stop, Stopped, Task, Work, in_task};
use fm_syz::Graph;
use std::alloc::Global;

/// The coordinates of a class, and after how many moves it is a coboundary.
#[derive(Drop)]
pub struct Class {
    pub base: Base,
    pub coordinates: Vec<Poly>,
    pub killed: Killed,
}

/// The plan of the query `class`, for the class (e, z) of this degree of the ideal of the generators.
pub fn decide_class(
    alloc: Global,
    ring: Ring,
    generators: &[Poly],
    degree: u8,
    e: u8,
    z: &[Poly],
    work: &mut Work,
) -> Result<Class, Unanswered>
    requires some { 1 ≤ ring.vars }
    requires few { ring.vars ≤ 8 }
    requires generators { AreOver ring generators.now }
    requires room { length generators.now + 1 < 2 ^ 32 }
    requires degree { degree < 255 }
    requires class { AreOver ring z.now }
    requires entries { length z.now < 2 ^ 32 }
    ensures follows { let fs = column_meaning ring generators.now in let c = column_meaning ring z.now in
        FollowsQuery (class_value ring degree fs e c) result work.old work.new (plan ring (ask_class degree fs e c) work.old) }
    ensures ring { IfOk result (λ x. ring_of x.base.ext ≡ ring) }
    ensures coordinates { IfOk result (λ x. AreOver ring x.coordinates.items) }
    ensures few { IfOk result (λ x. length x.coordinates.items < 2 ^ 32) }
    ensures killed { IfOk result (λ x. IsKilledOver ring x.killed) }
{
    let resolution = resolve(alloc, Side::Alone, ring, generators, degree, work)?;
    test_in(alloc, &resolution, degree, e, z)?;
    let base = compute_base_of(alloc, Side::Alone, resolution, degree, work)?;
    let cocycles = base.ext().cocycles().generators().graph();
    let w = coordinates(alloc, e, z, cocycles, work)?;
    let killed = killed_in(alloc, &base, e, &w, work)?;
    Ok(Class {
        base,
        coordinates: w,
        killed,
    })
}

// The test by d_(i+1).
fn test_in(
    alloc: Global,
    resolution: &Resolution,
    degree: u8,
    e: u8,
    z: &[Poly],
) -> Result<(), Unanswered>
    requires degree { degree ≤ length resolution.now.next }
    requires over { AreOver resolution.now.first.matrix.ring z.now }
    requires room { length z.now < 2 ^ 32 }
    ensures follows { (units : ℕ) → let r = resolution.now.first.matrix.ring in FollowsQuery (λ u. tt) result units units
        (class_test r e (matrix_at r.prime r.vars (differentials r resolution.now) degree) (column_meaning r z.now) units) }
    ensures resolution { IsResolution resolution.now }
{
    test_class(
        alloc,
        resolution.differential(usize::from(degree) + 1),
        e,
        z,
    )
}

// The tasks `stage 0`, `stage 1`, ..
fn killed_in(
    alloc: Global,
    base: &Base,
    e: u8,
    w: &[Poly],
    work: &mut Work,
) -> Result<Killed, Stopped>
    requires over { AreOver (ring_of base.now.ext) w.now }
    requires length { length w.now ≡ length (cocycles_matrix base.now.ext).columns }
    ensures follows { let r = ring_of base.now.ext in FollowsPlan (killed_value r) result work.old work.new
        (stages r e (column_meaning r w.now) 0 None (chain_graphs r (base_meaning r base.now)) work.old) }
    ensures over { IfOk result (IsKilledOver (ring_of base.now.ext)) }
{
    let first = Task {
        side: Side::Alone,
        name: Name::Stage,
        number: 0,
    };
    let graphs = in_task(first, graphs(alloc, base))?;
    kill_stage(alloc, base.ring(), e, w, &graphs, work)
}

// The graphs of K_0 .. K_t.
fn graphs(alloc: Global, base: &Base) -> Result<Vec<&Graph>, Stop>
    ensures value { let b = base.now in IfOk result (λ gs.
        map (λ g. g.now) gs.items ≡ take (suc (length b.chain.growth)) (member_graphs (relations_graph b) b.chain.links)) }
    ensures memory { IfErr result (λ stop. stop ≡ Stop.Memory) }
    ensures base { IsBase base.now }
{
    let relations = base.ext().relations().generators().graph();
    let graphs = base.chain().graphs(alloc, relations)?;
    Ok(graphs)
}
