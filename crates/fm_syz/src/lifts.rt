// Lifts of columns that lie in the image.
ghost use Rattle.std.specs.Prelude.{Contains, IfOk, ◌≡◌};
ghost use Rattle.fm_run.specs.Runs.{Follows};
ghost use Rattle.fm_algebra.specs.PolynomialMatrices.{InImage, matrix_product};
ghost use Rattle.fm_mat.specs.Matrices.{AreColumns, columns_meaning, matrix_meaning};
ghost use Rattle.fm_graphs.specs.Graphs as runs;
ghost use Rattle.fm_graphs.specs.Listing.{VectorOf};
ghost use Rattle.fm_syz.specs.GraphValues.{IsGraph, graph_meaning};

use crate::graph::Graph;
use crate::lifting::lift_rest;
use crate::solving::solution;
use fm_mat::{Column, Matrix};
use fm_run::{Stop, Work};
use std::alloc::Global;

/// For each column of b, which lies in the image of the graph's matrix, a solution. Each costs one division.
pub fn lift_columns(alloc: Global, g: &Graph, b: &Matrix, work: &mut Work) -> Result<Matrix, Stop>
    requires ring { b.now.ring ≡ g.now.matrix.ring }
    requires rows { b.now.rows ≡ g.now.matrix.rows }
    ensures follows { let r = g.now.matrix.ring in Follows (matrix_meaning r) result work.old work.new
        (runs.lifted r (graph_meaning r g.now) (columns_meaning r b.now.columns) work.old) }
    ensures ring { IfOk result (λ m. m.ring ≡ g.now.matrix.ring) }
    ensures solves { let r = g.now.matrix.ring in let A = matrix_meaning r g.now.matrix in let B = matrix_meaning r b.now in
        ((v : VectorOf r) → Contains B.columns v → InImage r.prime r.vars A v) →
        IfOk result (λ m. matrix_product r.prime r.vars A (matrix_meaning r m) ≡ B) }
{
    solve_columns(alloc, g, b, work)
}

// The columns one after the other.
fn solve_columns(alloc: Global, g: &Graph, b: &Matrix, work: &mut Work) -> Result<Matrix, Stop>
    requires ring { b.now.ring ≡ g.now.matrix.ring }
    requires rows { b.now.rows ≡ g.now.matrix.rows }
    ensures complete { IsGraph g.now }
    ensures shape { AreColumns b.now.ring b.now.rows b.now.columns }
    ensures follows { let r = g.now.matrix.ring in Follows (matrix_meaning r) result work.old work.new
        (runs.lifted r (graph_meaning r g.now) (columns_meaning r b.now.columns) work.old) }
    ensures ring { IfOk result (λ m. m.ring ≡ g.now.matrix.ring) }
{
    let ring = g.ring();
    let rows = g.rows();
    let width = g.matrix().cols();
    let mut solutions = Vec::new(alloc);
    let mut columns = b.columns();
    'columns: loop {
        let Some((v, later)) = columns.split_first() else {
            return Ok(Matrix::new(ring, width, solutions));
        };
        let x = match lift_rest(alloc, g, v.entries(), work) {
            Ok(x) => x,
            Err(stop) => return Err(stop),
        };
        let entries = solution(alloc, ring, rows, width, &x.rest)?;
        solutions.push(Column::new(entries))?;
        columns = later;
    }
}
