// Lifts through graphs of twisted matrices.
ghost use Rattle.std.specs.Prelude.{IfOk, length, ◌≡◌};
ghost use Rattle.fm_algebra.specs.PolynomialMatrices.{matrix_twist};
ghost use Rattle.fm_chain.specs.Stages.{HasFew};
ghost use Rattle.fm_mat.specs.Matrices.{column_meaning, matrix_meaning};
ghost use Rattle.fm_plan.specs.Queries as plans;
ghost use Rattle.fm_run.specs.Runs.{Follows};
ghost use Rattle.fm_syz.specs.GraphValues.{graph_meaning};
ghost use Rattle.fm_syz.specs.Insides.{IsLiftOf, lifted_value};
ghost use Rattle.fm_vec.specs.Components.{AreOver};

use crate::twists::twisted_graph;
use fm_poly::Poly;
use fm_run::{Stop, Work};
use fm_syz::{Graph, Lifted, lift};
use std::alloc::Global;

/// Solves `A^[q] * w = v` for the graph's matrix A and q = p^e, where there is a solution. It costs the twist of the graph, and one division.
pub fn lift_at(alloc: Global, g: &Graph, e: u8, v: &[Poly], work: &mut Work) -> Result<Lifted, Stop>
    requires over { AreOver g.now.matrix.ring v.now }
    requires rows { length v.now ≡ g.now.matrix.rows }
    ensures follows { let r = g.now.matrix.ring in Follows (lifted_value r) result work.old work.new
        (plans.lift_at r e (graph_meaning r g.now) (column_meaning r v.now) work.old) }
    ensures solves { let r = g.now.matrix.ring in
        IfOk result (IsLiftOf r (matrix_twist r.prime r.vars e (matrix_meaning r g.now.matrix)) (column_meaning r v.now)) }
    ensures few { IfOk result HasFew }
{
    let h = twisted_graph(alloc, g, e)?;
    // What the graph tells: it has few columns.
    let _matrix = h.matrix();
    lift(alloc, &h, v, work)
}
