// Ext with its chain of kernels.
ghost use Rattle.std.specs.Prelude.{IfOk, length, ◌+◌, ◌<◌, ◌^◌, ◌≡◌, ◌≤◌};
ghost use Rattle.fm_ext.specs.Exts.{ring_of};
ghost use Rattle.fm_mat.specs.Matrices.{column_meaning};
ghost use Rattle.fm_plan.specs.Following.{FollowsPlan};
ghost use Rattle.fm_plan.specs.Queries as plans;
ghost use Rattle.fm_queries.specs.Bases.{IsBase, base_meaning, relations_graph, stable_graph};
ghost use Rattle.fm_resolve.specs.Resolutions.{resolution_value};
ghost use Rattle.fm_vec.specs.Components.{AreOver};

use fm_chain::{Chain, kernel_chain};
use fm_ext::{Ext, ext};
use fm_poly::{Poly, Ring};
use fm_resolve::{Resolution, resolve};
use fm_run::{Side, Stopped, Work};
use fm_syz::Graph;
use std::alloc::Global;
use std::marker::Model;

/// Ext^i(R/I, R) with its generating morphism, and the chain of kernels of the morphism, which begins with the relations.
#[derive(Drop)]
pub struct Base {
    ext: Ext,
    chain: Chain,
}

impl Model for Base {
    ghost use Rattle.fm_queries.specs.Bases.{BaseValue, IsBase};

    ghost Value = { BaseValue };

    ghost view = { λ b. record { ext = b.ext; chain = b.chain } };

    ghost invariant = { λ b. IsBase (record { ext = b.ext; chain = b.chain }) };
}

impl Base {
    pub fn ext(&self) -> &Ext
        ensures same { result.now ≡ self.now.ext }
        ensures base { IsBase self.now }
    {
        &self.ext
    }

    pub fn chain(&self) -> &Chain
        ensures same { result.now ≡ self.now.chain }
        ensures base { IsBase self.now }
    {
        &self.chain
    }

    /// The completed graph of the stable kernel K_t. It takes no memory.
    pub fn stable_kernel(&self) -> &Graph
        ensures same { result.now ≡ stable_graph self.entry.now }
        ensures base { IsBase self.entry.now }
    {
        self.chain
            .stable_kernel(self.ext.relations().generators().graph())
    }

    pub fn ring(&self) -> Ring
        ensures { result ≡ ring_of self.now.ext }
    {
        self.ext.ring()
    }
}

/// Ext of this degree of the ideal of the generators, with its chain: the tasks from `resolve 1` to the last `chain s`.
pub fn compute_base(
    alloc: Global,
    side: Side,
    ring: Ring,
    generators: &[Poly],
    degree: u8,
    work: &mut Work,
) -> Result<Base, Stopped>
    requires some { 1 ≤ ring.vars }
    requires few { ring.vars ≤ 8 }
    requires generators { AreOver ring generators.now }
    requires room { length generators.now + 1 < 2 ^ 32 }
    requires degree { degree < 255 }
    ensures follows { FollowsPlan (base_meaning ring) result work.old work.new
        (plans.base_plan ring side degree (column_meaning ring generators.now) work.old) }
    ensures ring { IfOk result (λ b. ring_of b.ext ≡ ring) }
{
    let resolution = resolve(alloc, side, ring, generators, degree, work)?;
    compute_base_of(alloc, side, resolution, degree, work)
}

/// The same from a resolution through the degree: the tasks from `lift 1` on.
pub fn compute_base_of(
    alloc: Global,
    side: Side,
    resolution: Resolution,
    degree: u8,
    work: &mut Work,
) -> Result<Base, Stopped>
    requires some { 1 ≤ resolution.first.matrix.ring.vars }
    requires few { resolution.first.matrix.ring.vars ≤ 8 }
    requires degree { length resolution.next ≡ degree }
    ensures follows { let r = resolution.first.matrix.ring in FollowsPlan (base_meaning r) result work.old work.new
        (plans.base_of r side degree (resolution_value r resolution) work.old) }
    ensures ring { IfOk result (λ b. ring_of b.ext ≡ resolution.first.matrix.ring) }
{
    let ext = ext(alloc, side, resolution, degree, work)?;
    let relations = ext.relations().generators().graph();
    let chain = kernel_chain(alloc, side, ext.u(), relations, work)?;
    let _links = chain.links();
    Ok(Base { ext, chain })
}
