// Resolutions of ideals.
ghost use Rattle.std.specs.Prelude.{IfErr, IfOk, Some, length, map, slice_get, take, ◌+◌, ◌-◌, ◌<◌, ◌^◌, ◌∷◌, ◌≡◌, ◌≤◌};
ghost use Rattle.fm_limit.specs.ResolvedIdeal.{IsResolutionOf};
ghost use Rattle.fm_mat.specs.Matrices.{column_meaning};
ghost use Rattle.fm_plan.specs.Base as plans;
ghost use Rattle.fm_plan.specs.Base.{resolution_plan};
ghost use Rattle.fm_plan.specs.Following.{FollowsPlan};
ghost use Rattle.fm_plan.specs.Results.{differentials_of};
ghost use Rattle.fm_resolve.specs.Resolutions.{
  AreExactFrom,
  AreKernelGenerators,
  IsResolution,
  generators_from,
  graphs_of,
  resolution_value,
  resolve_step,
};
ghost use Rattle.fm_syz.specs.GeneratorValues.{generators_meaning};
ghost use Rattle.fm_syz.specs.GraphValues.{GraphValue, IsGraph, graph_meaning};
ghost use Rattle.fm_vec.specs.Components.{AreOver};

use crate::rows::first_graph;
use fm_mat::Matrix;
use fm_poly::{Poly, Ring};
use fm_run::{Name, Side, Stop, Stopped, Task, Work, in_task};
use fm_syz::{Generators, Graph, generators_of};
use std::alloc::{AllocError, Global};
use std::marker::Model;

/// The completed graph of d_1, and generators of the kernels of d_1, d_2, ..: each `found` is the next matrix, and has a completed graph.
#[derive(Drop)]
pub struct Resolution {
    first: Graph,
    next: Vec<Generators>,
}

impl Model for Resolution {
    ghost use Rattle.fm_resolve.specs.Resolutions.{IsResolution, ResolutionValue};

    ghost Value = { ResolutionValue };

    ghost view = { λ x. record { first = x.first; next = x.next.items } };

    ghost invariant = { λ x. IsResolution (record { first = x.first; next = x.next.items }) };
}

impl Resolution {
    /// The completed graph of d_1.
    pub fn first(&self) -> &Graph
        ensures same { result.now ≡ self.now.first }
        ensures resolution { IsResolution self.now }
    {
        &self.first
    }

    /// Generators of the kernels of d_1, d_2, ..
    pub fn next(&self) -> &[Generators]
        ensures same { result.now ≡ self.now.next }
        ensures resolution { IsResolution self.now }
    {
        &self.next
    }

    pub fn ring(&self) -> Ring
        ensures { result ≡ self.now.first.matrix.ring }
    {
        self.first.ring()
    }

    /// The completed graph of d_j, counted from 1.
    pub fn graph(&self, j: usize) -> &Graph
        requires low { 1 ≤ j }
        requires high { j ≤ length self.now.next + 1 }
        ensures same { slice_get (graphs_of self.entry.now) (j - 1) ≡ Some result.now }
        ensures ring { result.now.matrix.ring ≡ self.now.first.matrix.ring }
        ensures resolution { IsResolution self.now }
    {
        if j == 1 {
            return &self.first;
        }
        self.next[j - 2].graph()
    }

    /// d_j, counted from 1.
    pub fn differential(&self, j: usize) -> &Matrix
        requires low { 1 ≤ j }
        requires high { j ≤ length self.now.next + 1 }
        ensures same { slice_get (map (λ (g : GraphValue). g.matrix) (graphs_of self.entry.now)) (j - 1) ≡ Some result.now }
        ensures ring { result.now.ring ≡ self.now.first.matrix.ring }
        ensures resolution { IsResolution self.now }
    {
        self.graph(j).matrix()
    }

    /// The completed graphs of d_1, d_2, .., count of them.
    pub fn graphs(&self, alloc: Global, count: usize) -> Result<Vec<&Graph>, AllocError>
        requires { count ≤ length self.now.next + 1 }
        ensures value { IfOk result (λ gs. map (λ g. g.now) gs.items ≡ take count (graphs_of self.now)) }
        ensures resolution { IsResolution self.now }
    {
        let _ = &self.first;
        let mut graphs = Vec::new(alloc);
        for j in 0..count {
            graphs.push(self.graph(j + 1))?;
        }
        Ok(graphs)
    }

    /// d_1, d_2, .., count of them.
    pub fn differentials(&self, alloc: Global, count: usize) -> Result<Vec<&Matrix>, AllocError>
        requires { count ≤ length self.now.next + 1 }
        ensures value { IfOk result (λ ds. map (λ d. d.now) ds.items ≡ take count (map (λ (g : GraphValue). g.matrix) (graphs_of self.now))) }
        ensures resolution { IsResolution self.now }
    {
        let _ = &self.first;
        let mut differentials = Vec::new(alloc);
        for j in 0..count {
            differentials.push(self.differential(j + 1))?;
        }
        Ok(differentials)
    }
}

/// A resolution through this degree of the ideal of the generators, by the tasks `resolve 1`, `resolve 2`, ..
pub fn resolve(
    alloc: Global,
    side: Side,
    ring: Ring,
    generators: &[Poly],
    degree: u8,
    work: &mut Work,
) -> Result<Resolution, Stopped>
    requires some { 1 ≤ ring.vars }
    requires few { ring.vars ≤ 8 }
    requires generators { AreOver ring generators.now }
    requires room { length generators.now + 1 < 2 ^ 32 }
    requires degree { degree < 255 }
    ensures follows { FollowsPlan (resolution_value ring) result work.old work.new
        (resolution_plan ring side degree (column_meaning ring generators.now) work.old) }
    ensures resolves { IfOk result (λ x.
        IsResolutionOf ring.prime ring.vars (column_meaning ring generators.now) degree (differentials_of ring (resolution_value ring x))) }
    ensures ring { IfOk result (λ x. x.first.matrix.ring ≡ ring) }
    ensures count { IfOk result (λ x. length x.next ≡ degree) }
{
    let first = in_task(
        resolve_task(side, 0),
        first_graph(alloc, ring, generators, work),
    )?;
    let next = resolving(alloc, side, degree, 1, &first, work)?;
    Ok(Resolution { first, next })
}

// The tasks `resolve j+1`, as many as count, from the graph of d_j on.
fn resolving(
    alloc: Global,
    side: Side,
    count: u8,
    j: u8,
    g: &Graph,
    work: &mut Work,
) -> Result<Vec<Generators>, Stopped>
    requires some { 1 ≤ g.now.matrix.ring.vars }
    requires few { g.now.matrix.ring.vars ≤ 8 }
    requires room { j + count < 256 }
    ensures follows { let r = g.now.matrix.ring in FollowsPlan (λ xs. generators_from r g.now xs.items) result work.old work.new
        (plans.resolving r side count j (graph_meaning r g.now) work.old) }
    ensures exact { IfOk result (λ xs. AreExactFrom g.now xs.items) }
    ensures count { IfOk result (λ xs. length xs.items ≡ count) }
{
    if count == 0 {
        return Ok(Vec::new(alloc));
    }
    let x = next_generators(alloc, side, j, g, work)?;
    let later = resolving(alloc, side, count - 1, j + 1, x.graph(), work)?;
    let all = before(resolve_task(side, j), x, later)?;
    Ok(all)
}

// The task `resolve j+1`.
fn next_generators(
    alloc: Global,
    side: Side,
    j: u8,
    g: &Graph,
    work: &mut Work,
) -> Result<Generators, Stopped>
    requires some { 1 ≤ g.now.matrix.ring.vars }
    requires few { g.now.matrix.ring.vars ≤ 8 }
    ensures follows { let r = g.now.matrix.ring in FollowsPlan (generators_meaning r g.now) result work.old work.new
        (resolve_step r side j (graph_meaning r g.now) work.old) }
    ensures exact { IfOk result (AreKernelGenerators g.now) }
{
    let width = g.matrix().cols();
    in_task(resolve_task(side, j), generators_of(alloc, g, width, work))
}

fn resolve_task(side: Side, j: u8) -> Task
    ensures { result ≡ record { side = side; name = Name.Resolve; number = j + 1 } }
{
    Task {
        side,
        name: Name::Resolve,
        number: u64::from(j) + 1,
    }
}

// The list with x in front; want of memory is told of the task.
fn before(task: Task, x: Generators, later: Vec<Generators>) -> Result<Vec<Generators>, Stopped>
    ensures value { IfOk result (λ xs. xs.items ≡ x ∷ later.items) }
    ensures memory { IfErr result (λ s. s.stop ≡ Stop.Memory) }
{
    let mut all = later;
    match all.insert(0, x) {
        Ok(()) => Ok(all),
        Err(_) => Err(Stopped {
            task,
            stop: Stop::Memory,
        }),
    }
}
