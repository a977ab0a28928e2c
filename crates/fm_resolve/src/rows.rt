// The row of the generators of an ideal.
ghost use Rattle.std.specs.Prelude.{IfOk, length, ◌+◌, ◌<◌, ◌^◌, ◌≡◌, ◌≤◌, ◌∷◌, []};
ghost use Rattle.fm_graphs.specs.Graphs as runs;
ghost use Rattle.fm_run.specs.Runs.{Follows};
ghost use Rattle.fm_syz.specs.GraphValues.{IsGraph, graph_meaning};
ghost use Rattle.fm_limit.specs.ResolvedIdeal.{row};
ghost use Rattle.fm_mat.specs.Matrices.{column_meaning, matrix_meaning};
ghost use Rattle.fm_vec.specs.Components.{AreOver};

use fm_mat::{Column, Matrix};
use fm_poly::{Poly, Ring};
use fm_run::{Stop, Work};
use fm_syz::{Graph, graph_of};
use std::alloc::{AllocError, Global};

/// The matrix of one row, of these entries.
pub(crate) fn generators_row(
    alloc: Global,
    ring: Ring,
    generators: &[Poly],
) -> Result<Matrix, AllocError>
    requires over { AreOver ring generators.now }
    requires room { length generators.now < 2 ^ 32 }
    ensures ring { IfOk result (λ m. m.ring ≡ ring) }
    ensures rows { IfOk result (λ m. m.rows ≡ 1) }
    ensures count { IfOk result (λ m. length m.columns ≡ length generators.now) }
    ensures value { IfOk result (λ m. matrix_meaning ring m ≡ row ring.prime ring.vars (column_meaning ring generators.now)) }
{
    let column = one_column(alloc, ring, Column::copy_of(alloc, generators)?)?;
    let row = column.flip(alloc)?;
    Ok(row)
}

/// The completed graph of the row of the generators.
pub(crate) fn first_graph(
    alloc: Global,
    ring: Ring,
    generators: &[Poly],
    work: &mut Work,
) -> Result<Graph, Stop>
    requires some { 1 ≤ ring.vars }
    requires few { ring.vars ≤ 8 }
    requires over { AreOver ring generators.now }
    requires room { length generators.now + 1 < 2 ^ 32 }
    ensures follows { Follows (λ g. graph_meaning ring g) result work.old work.new
        (runs.graph_run ring (row ring.prime ring.vars (column_meaning ring generators.now)) work.old) }
    ensures ring { IfOk result (λ g. g.matrix.ring ≡ ring) }
    ensures rows { IfOk result (λ g. g.matrix.rows ≡ 1) }
    ensures complete { IfOk result IsGraph }
{
    let row = generators_row(alloc, ring, generators)?;
    graph_of(alloc, row, work)
}

/// The matrix of this column alone.
pub fn one_column(alloc: Global, ring: Ring, column: Column) -> Result<Matrix, AllocError>
    requires over { AreOver ring column }
    requires room { length column < 2 ^ 32 }
    ensures { IfOk result (λ m. m ≡ record { ring = ring; rows = length column; columns = column ∷ [] }) }
{
    let rows = column.entries().len() as u32;
    let mut columns = Vec::new(alloc);
    columns.push(column)?;
    Ok(Matrix::new(ring, rows, columns))
}
