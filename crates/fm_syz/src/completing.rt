// The completed graph of a matrix.
ghost use Rattle.std.specs.Prelude.{IfOk, length, map, ◌+◌, ◌<◌, ◌^◌, ◌≡◌, ◌≤◌};
ghost use Rattle.fm_complete.specs.Divisions as divisions;
ghost use Rattle.fm_complete.specs.Standing.{AreOfShape};
ghost use Rattle.fm_graphs.specs.Graphs.{graph_run};
ghost use Rattle.fm_graphs.specs.Listing.{terms_of};
ghost use Rattle.fm_groebner.specs.Graphs.{graph};
ghost use Rattle.fm_mat.specs.Matrices.{matrix_meaning};
ghost use Rattle.fm_run.specs.Runs.{Follows};
ghost use Rattle.fm_syz.specs.GraphValues.{IsGraph, graph_meaning};

use crate::column_vectors::vectors;
use crate::graph::Graph;
use fm_complete::complete_all;
use fm_mat::Matrix;
use fm_run::{Stop, Work};
use fm_vec::Vector;
use std::alloc::{AllocError, Global};

/// Completes the graph of a: column j of a above unit vector j. It spends what the completion spends.
pub fn graph_of(alloc: Global, a: Matrix, work: &mut Work) -> Result<Graph, Stop>
    requires some { 1 ≤ a.ring.vars }
    requires few { a.ring.vars ≤ 8 }
    requires room { a.rows + length a.columns < 2 ^ 32 }
    ensures follows { let r = a.ring in
        Follows (λ g. graph_meaning r g) result work.old work.new (graph_run r (matrix_meaning r a) work.old) }
    ensures matrix { IfOk result (λ g. g.matrix ≡ a) }
    ensures complete { IfOk result IsGraph }
{
    let columns = graph_columns(alloc, &a)?;
    let basis = match complete_all(
        alloc,
        a.ring(),
        a.rows() + a.columns().len() as u32,
        &columns,
        work,
    ) {
        Ok(basis) => basis,
        Err(stop) => return Err(stop),
    };
    Ok(Graph::new(a, basis.members, basis.log))
}

/// The columns of a above the unit vectors: what a completion of the graph of a begins with.
pub fn graph_columns(alloc: Global, a: &Matrix) -> Result<Vec<Vector>, AllocError>
    requires some { 1 ≤ a.now.ring.vars }
    requires few { a.now.ring.vars ≤ 8 }
    requires room { a.now.rows + length a.now.columns < 2 ^ 32 }
    ensures terms { let r = a.now.ring in
        IfOk result (λ out. divisions.terms_of out.items ≡ map (terms_of r) (graph r.prime r.vars (matrix_meaning r a.now)).columns) }
    ensures shape { IfOk result (λ out. AreOfShape a.now.ring (a.now.rows + length a.now.columns) out.items) }
    ensures few { IfOk result (λ out. length out.items < 2 ^ 32) }
{
    let unit = Matrix::unit(alloc, a.ring(), a.cols())?;
    let whole = a.stack(alloc, &unit)?;
    vectors(alloc, a.ring(), whole.rows(), whole.columns())
}
