// Generators of the first entries of kernels.
ghost use Rattle.std.specs.Prelude.{IfOk, length, ◌-◌, ◌≡◌, ◌≤◌};
ghost use Rattle.fm_algebra.specs.PolynomialMatrices.{GeneratesKernel, GeneratesPreimage, matrix_beside};
ghost use Rattle.fm_graphs.specs.Trims as runs;
ghost use Rattle.fm_graphs.specs.Trims.{kernel_run, preimage_run};
ghost use Rattle.fm_mat.specs.Matrices.{matrix_meaning};
ghost use Rattle.fm_run.specs.Runs.{Follows};
ghost use Rattle.fm_syz.specs.GraphValues.{graph_meaning};
ghost use Rattle.fm_syz.specs.GeneratorValues.{AreGenerators, generators_meaning, preimage_meaning};

use crate::completing::graph_of;
use crate::generators::Generators;
use crate::graph::Graph;
use crate::lifts::lift_columns;
use crate::parts::syzygy_parts;
use crate::preimages::Preimage;
use crate::trimming::trim_nonzero;
use fm_mat::Matrix;
use fm_run::{Stop, Work};
use std::alloc::Global;

/// Generators of the first a entries of the kernel of the graph's matrix. The syzygies are cut after a entries, and those with a nonzero first
/// part are trimmed: it costs the trim of these parts, the completion of the graph of what is kept, and one division a syzygy.
pub fn generators_of(alloc: Global, g: &Graph, a: u32, work: &mut Work) -> Result<Generators, Stop>
    requires some { 1 ≤ g.now.matrix.ring.vars }
    requires few { g.now.matrix.ring.vars ≤ 8 }
    requires part { a ≤ length g.now.matrix.columns }
    ensures follows { let r = g.now.matrix.ring in Follows (generators_meaning r g.now) result work.old work.new
        (runs.generating r a (length g.now.matrix.columns - a) (graph_meaning r g.now) work.old) }
    ensures generate { IfOk result (AreGenerators g.now) }
    ensures rows { IfOk result (λ x. x.graph.matrix.rows ≡ a) }
{
    let parts = syzygy_parts(alloc, g, a)?;
    let kept = match trim_nonzero(alloc, &parts.upper, work) {
        Ok(kept) => kept,
        Err(stop) => return Err(stop),
    };
    if a as usize + kept.len() > 4_294_967_295 {
        return Err(Stop::Memory);
    }
    let found = parts.upper.pick(alloc, &kept)?;
    let x = parts.lower.pick(alloc, &kept)?;
    let graph = match graph_of(alloc, found, work) {
        Ok(graph) => graph,
        Err(stop) => return Err(stop),
    };
    let w = match lift_columns(alloc, &graph, &parts.upper, work) {
        Ok(w) => w,
        Err(stop) => return Err(stop),
    };
    Ok(Generators::new(graph, x, w))
}

/// Generators of the kernel of a.
pub fn kernel(alloc: Global, a: Matrix, work: &mut Work) -> Result<Preimage, Stop>
    requires some { 1 ≤ a.ring.vars }
    requires few { a.ring.vars ≤ 8 }
    ensures follows { let r = a.ring in Follows (preimage_meaning r) result work.old work.new (kernel_run r (matrix_meaning r a) work.old) }
    ensures matrix { IfOk result (λ p. p.whole.matrix ≡ a) }
    ensures rows { IfOk result (λ p. p.generators.graph.matrix.rows ≡ length a.columns) }
    ensures ring { IfOk result (λ p. p.generators.graph.matrix.ring ≡ a.ring) }
    ensures generates { let r = a.ring in IfOk result (λ p.
        GeneratesKernel r.prime r.vars (matrix_meaning r p.generators.graph.matrix) (matrix_meaning r a)) }
{
    let width = a.cols();
    if a.rows() as usize + a.columns().len() > 4_294_967_295 {
        return Err(Stop::Memory);
    }
    let whole = match graph_of(alloc, a, work) {
        Ok(whole) => whole,
        Err(stop) => return Err(stop),
    };
    let generators = match generators_of(alloc, &whole, width, work) {
        Ok(generators) => generators,
        Err(stop) => return Err(stop),
    };
    Ok(Preimage::new(whole, generators))
}

/// Generators of all w with `a * w` in the image of b.
pub fn preimage(alloc: Global, a: &Matrix, b: &Matrix, work: &mut Work) -> Result<Preimage, Stop>
    requires ring { b.now.ring ≡ a.now.ring }
    requires rows { b.now.rows ≡ a.now.rows }
    requires some { 1 ≤ a.now.ring.vars }
    requires few { a.now.ring.vars ≤ 8 }
    ensures follows { let r = a.now.ring in Follows (preimage_meaning r) result work.old work.new
        (preimage_run r (matrix_meaning r a.now) (matrix_meaning r b.now) work.old) }
    ensures whole { IfOk result (λ p. p.whole.matrix.ring ≡ a.now.ring) }
    ensures matrix { let r = a.now.ring in IfOk result (λ p.
        matrix_meaning r p.whole.matrix ≡ matrix_beside r.prime r.vars (matrix_meaning r a.now) (matrix_meaning r b.now)) }
    ensures rows { IfOk result (λ p. p.generators.graph.matrix.rows ≡ length a.now.columns) }
    ensures ring { IfOk result (λ p. p.generators.graph.matrix.ring ≡ a.now.ring) }
    ensures generates { let r = a.now.ring in IfOk result (λ p.
        GeneratesPreimage r.prime r.vars (matrix_meaning r p.generators.graph.matrix) (matrix_meaning r a.now) (matrix_meaning r b.now)) }
{
    if a.rows() as usize + a.columns().len() + b.columns().len() > 4_294_967_295 {
        return Err(Stop::Memory);
    }
    let both = a.beside(alloc, b)?;
    let whole = match graph_of(alloc, both, work) {
        Ok(whole) => whole,
        Err(stop) => return Err(stop),
    };
    let generators = match generators_of(alloc, &whole, a.cols(), work) {
        Ok(generators) => generators,
        Err(stop) => return Err(stop),
    };
    Ok(Preimage::new(whole, generators))
}
