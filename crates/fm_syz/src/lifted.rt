// The lift of one vector.
ghost use Rattle.std.specs.Prelude.{IfOk, length, ◌≡◌};
ghost use Rattle.fm_run.specs.Runs.{Follows, ended_with};
ghost use Rattle.fm_mat.specs.Matrices.{column_meaning, matrix_meaning};
ghost use Rattle.fm_graphs.specs.Graphs.{lift_run};
ghost use Rattle.fm_syz.specs.GraphValues.{graph_meaning};
ghost use Rattle.fm_syz.specs.Insides.{IsLiftOf, answer_of, lifted_value};
ghost use Rattle.fm_vec.specs.Components.{AreOver};

use crate::blocks::is_below;
use crate::graph::Graph;
use crate::inside::Outside;
use crate::lifting::lift_rest;
use crate::solving::solution;
use fm_poly::Poly;
use fm_run::{Stop, Work};
use std::alloc::Global;

/// A vector lies in the image of a matrix, and this is a solution, or it does not; its number is 1 then.
#[derive(Drop)]
pub enum Lifted {
    InImage(Vec<Poly>),
    NotInImage(Outside),
}

/// Solves `A * w = v` for the graph's matrix A, where there is a solution. It costs one division of v by the members of the completion.
pub fn lift(alloc: Global, g: &Graph, v: &[Poly], work: &mut Work) -> Result<Lifted, Stop>
    requires over { AreOver g.now.matrix.ring v.now }
    requires rows { length v.now ≡ g.now.matrix.rows }
    ensures follows { let r = g.now.matrix.ring in Follows (lifted_value r) result work.old work.new
        (ended_with (answer_of r (graph_meaning r g.now)) (lift_run r (graph_meaning r g.now) (column_meaning r v.now) work.old)) }
    ensures solves { let r = g.now.matrix.ring in IfOk result (IsLiftOf r (matrix_meaning r g.now.matrix) (column_meaning r v.now)) }
{
    let x = match lift_rest(alloc, g, v, work) {
        Ok(x) => x,
        Err(stop) => return Err(stop),
    };
    if !is_below(g.rows(), &x.rest) {
        return Ok(Lifted::NotInImage(Outside {
            column: 1,
            by: x.by,
            rest: x.rest,
        }));
    }
    let w = solution(alloc, g.ring(), g.rows(), g.width(), &x.rest)?;
    Ok(Lifted::InImage(w))
}
