// Twists, which spend no unit.
ghost use Rattle.std.specs.Prelude.{IfOk, length, ◌≡◌, ℕ};
ghost use Rattle.fm_algebra.specs.PolynomialMatrices.{matrix_twist};
ghost use Rattle.fm_graphs.specs.Bounds as runs;
ghost use Rattle.fm_graphs.specs.Graphs as runs_of_graphs;
ghost use Rattle.fm_mat.specs.Matrices.{matrix_meaning};
ghost use Rattle.fm_poly.specs.declared.ring.Ring.{Ring};
ghost use Rattle.fm_run.specs.Runs.{Follows};
ghost use Rattle.fm_syz.specs.GraphValues.{graph_meaning};

use fm_mat::Matrix;
use fm_poly::PolyError;
use fm_run::Stop;
use fm_syz::{Graph, twisted};
use std::alloc::Global;

/// The matrix `a^[q]` for q = p^e, in a run.
#[tactic(auto, unfolding(fm_graphs::specs::Bounds::twisted_matrix))]
pub fn twisted_matrix(alloc: Global, a: &Matrix, e: u8) -> Result<Matrix, Stop>
    ensures follows { (r : Ring) (units : ℕ) → a.now.ring ≡ r → Follows (matrix_meaning r) result units units
        (runs.twisted_matrix r.prime r.vars e (matrix_meaning r a.now) units) }
    ensures ring { IfOk result (λ m. m.ring ≡ a.now.ring) }
    ensures rows { IfOk result (λ m. m.rows ≡ a.now.rows) }
    ensures count { IfOk result (λ m. length m.columns ≡ length a.now.columns) }
{
    match a.twist(alloc, e) {
        Ok(power) => Ok(power),
        Err(PolyError::Exponent) => Err(Stop::Exponent),
        Err(PolyError::Memory) => Err(Stop::Memory),
    }
}

pub(crate) fn twisted_graph(alloc: Global, g: &Graph, e: u8) -> Result<Graph, Stop>
    ensures follows { (r : Ring) (units : ℕ) → g.now.matrix.ring ≡ r → Follows (graph_meaning r) result units units
        (runs_of_graphs.twisted_graph r e (graph_meaning r g.now) units) }
    ensures ring { IfOk result (λ h. h.matrix.ring ≡ g.now.matrix.ring) }
    ensures value { let r = g.now.matrix.ring in IfOk result (λ h.
        matrix_meaning r h.matrix ≡ matrix_twist r.prime r.vars e (matrix_meaning r g.now.matrix)) }
    ensures rows { IfOk result (λ h. h.matrix.rows ≡ g.now.matrix.rows) }
{
    match twisted(alloc, g, e) {
        Ok(h) => Ok(h),
        Err(PolyError::Exponent) => Err(Stop::Exponent),
        Err(PolyError::Memory) => Err(Stop::Memory),
    }
}
