// Whether columns lie in an image.
ghost use Rattle.std.specs.Prelude.{IfOk, length, ◌≡◌, ◌≤◌};
ghost use Rattle.fm_run.specs.Runs.{Follows};
ghost use Rattle.fm_algebra.specs.PolynomialMatrices.{matrix_unit};
ghost use Rattle.fm_mat.specs.Matrices.{AreColumns, matrix_meaning};
ghost use Rattle.fm_graphs.specs.Graphs.{inside_run, whole_run};
ghost use Rattle.fm_syz.specs.GraphValues.{IsGraph, graph_meaning};
ghost use Rattle.fm_syz.specs.Insides.{HasColumns, IsInsideOf, inside_value};

use crate::blocks::is_below;
use crate::graph::Graph;
use crate::lifting::lift_rest;
use crate::solving::solution;
use fm_mat::{Column, Matrix};
use fm_run::{Stop, Work};
use fm_vec::Vector;
use std::alloc::Global;

/// A column that does not lie in an image, by its number from 1, with its division: the numbers of the members that were taken, and the rest.
#[derive(Drop)]
pub struct Outside {
    pub column: u32,
    pub by: Vec<u32>,
    pub rest: Vector,
}

/// Either all columns lie in an image, and these are their solutions, or here is the first that does not.
#[derive(Drop)]
pub enum Inside {
    All(Vec<Column>),
    First(Outside),
}

/// Lifts the columns of m up to the first that does not lie in the image of the graph's matrix.
pub fn inside_of(alloc: Global, m: &Matrix, g: &Graph, work: &mut Work) -> Result<Inside, Stop>
    requires ring { m.now.ring ≡ g.now.matrix.ring }
    requires rows { m.now.rows ≡ g.now.matrix.rows }
    ensures follows { let r = g.now.matrix.ring in Follows (inside_value r) result work.old work.new
        (inside_run r (matrix_meaning r m.now) (graph_meaning r g.now) work.old) }
    ensures columns { IfOk result (HasColumns g.now.matrix.ring (length g.now.matrix.columns)) }
    ensures solves { let r = g.now.matrix.ring in IfOk result (IsInsideOf r (matrix_meaning r g.now.matrix) (matrix_meaning r m.now)) }
{
    lift_to_the_first_outside(alloc, m, g, work)
}

/// Whether the image of the graph's matrix is everything: the unit vectors are lifted up to the first that does not lie in it.
pub fn whole_of(alloc: Global, g: &Graph, work: &mut Work) -> Result<Inside, Stop>
    requires some { 1 ≤ g.now.matrix.ring.vars }
    requires few { g.now.matrix.ring.vars ≤ 8 }
    ensures follows { let r = g.now.matrix.ring in Follows (inside_value r) result work.old work.new
        (whole_run r (graph_meaning r g.now) work.old) }
    ensures columns { IfOk result (HasColumns g.now.matrix.ring (length g.now.matrix.columns)) }
    ensures solves { let r = g.now.matrix.ring in
        IfOk result (IsInsideOf r (matrix_meaning r g.now.matrix) (matrix_unit r.prime r.vars g.now.matrix.rows)) }
{
    let unit = Matrix::unit(alloc, g.ring(), g.rows())?;
    inside_of(alloc, &unit, g, work)
}

// The columns one after the other.
fn lift_to_the_first_outside(
    alloc: Global,
    m: &Matrix,
    g: &Graph,
    work: &mut Work,
) -> Result<Inside, Stop>
    requires ring { m.now.ring ≡ g.now.matrix.ring }
    requires rows { m.now.rows ≡ g.now.matrix.rows }
    ensures complete { IsGraph g.now }
    ensures shape { AreColumns m.now.ring m.now.rows m.now.columns }
    ensures follows { let r = g.now.matrix.ring in Follows (inside_value r) result work.old work.new
        (inside_run r (matrix_meaning r m.now) (graph_meaning r g.now) work.old) }
    ensures columns { IfOk result (HasColumns g.now.matrix.ring (length g.now.matrix.columns)) }
{
    let ring = g.ring();
    let rows = g.rows();
    let width = g.matrix().cols();
    let mut solutions = Vec::new(alloc);
    let mut columns = m.columns();
    let mut number = 0;
    'columns: loop {
        let Some((v, later)) = columns.split_first() else {
            return Ok(Inside::All(solutions));
        };
        number += 1;
        let x = match lift_rest(alloc, g, v.entries(), work) {
            Ok(x) => x,
            Err(stop) => return Err(stop),
        };
        if !is_below(rows, &x.rest) {
            return Ok(Inside::First(Outside {
                column: number,
                by: x.by,
                rest: x.rest,
            }));
        }
        let entries = solution(alloc, ring, rows, width, &x.rest)?;
        solutions.push(Column::new(entries))?;
        columns = later;
    }
}
