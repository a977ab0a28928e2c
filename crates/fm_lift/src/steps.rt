// One matrix of a lift.
ghost use Rattle.std.specs.Prelude.{IfOk, length, ℕ, ◌≡◌};
ghost use Rattle.fm_graphs.specs.Bounds.{multiplied, twisted_matrix};
ghost use Rattle.fm_lift.specs.Lifts.{product_work};
ghost use Rattle.fm_mat.specs.Matrices.{matrix_meaning};
ghost use Rattle.fm_plan.specs.Base.{lift_work};
ghost use Rattle.fm_poly.specs.declared.ring.Ring.{Ring};
ghost use Rattle.fm_run.specs.Runs.{Follows};
ghost use Rattle.fm_syz.specs.GraphValues.{IsGraph, graph_meaning};

use fm_mat::Matrix;
use fm_poly::PolyError;
use fm_run::{Stop, Work};
use fm_syz::{Graph, lift_columns};
use std::alloc::Global;

/// The matrix x with `d * x = theta * d^[p]` for the graph's matrix d, where there is one. It costs a twist, a product, and one division for
/// each column of d.
pub fn lift_through(
    alloc: Global,
    theta: &Matrix,
    g: &Graph,
    work: &mut Work,
) -> Result<Matrix, Stop>
    requires ring { theta.now.ring ≡ g.now.matrix.ring }
    requires rows { theta.now.rows ≡ g.now.matrix.rows }
    requires inner { length theta.now.columns ≡ g.now.matrix.rows }
    ensures complete { IsGraph g.now }
    ensures follows { let r = g.now.matrix.ring in Follows (matrix_meaning r) result work.old work.new
        (lift_work r (matrix_meaning r theta.now) (graph_meaning r g.now) work.old) }
    ensures ring { IfOk result (λ m. m.ring ≡ g.now.matrix.ring) }
    ensures rows { IfOk result (λ m. m.rows ≡ length g.now.matrix.columns) }
    ensures count { IfOk result (λ m. length m.columns ≡ length g.now.matrix.columns) }
{
    let power = twisted(alloc, g.matrix())?;
    lift_of_product(alloc, theta, &power, g, work)
}

/// The matrix x with `d * x = a * b` for the graph's matrix d, where there is one. It costs a product, and one division for each column of b.
pub fn lift_of_product(
    alloc: Global,
    a: &Matrix,
    b: &Matrix,
    g: &Graph,
    work: &mut Work,
) -> Result<Matrix, Stop>
    requires ring { a.now.ring ≡ g.now.matrix.ring }
    requires rows { a.now.rows ≡ g.now.matrix.rows }
    requires ring_b { b.now.ring ≡ g.now.matrix.ring }
    requires inner { b.now.rows ≡ length a.now.columns }
    ensures follows { let r = g.now.matrix.ring in Follows (matrix_meaning r) result work.old work.new
        (product_work r (matrix_meaning r a.now) (matrix_meaning r b.now) (graph_meaning r g.now) work.old) }
    ensures ring { IfOk result (λ m. m.ring ≡ g.now.matrix.ring) }
    ensures rows { IfOk result (λ m. m.rows ≡ length g.now.matrix.columns) }
    ensures count { IfOk result (λ m. length m.columns ≡ length b.now.columns) }
{
    let product = product(alloc, a, b)?;
    lift_columns(alloc, g, &product, work)
}

/// The twist by p, in a run: it spends no unit, and may pass the bound on exponents.
#[tactic(auto, unfolding(fm_graphs::specs::Bounds::twisted_matrix))]
pub fn twisted(alloc: Global, a: &Matrix) -> Result<Matrix, Stop>
    ensures follows { (r : Ring) (units : ℕ) → a.now.ring ≡ r → Follows (matrix_meaning r) result units units
        (twisted_matrix r.prime r.vars 1 (matrix_meaning r a.now) units) }
    ensures ring { IfOk result (λ m. m.ring ≡ a.now.ring) }
    ensures rows { IfOk result (λ m. m.rows ≡ a.now.rows) }
    ensures count { IfOk result (λ m. length m.columns ≡ length a.now.columns) }
{
    match a.twist(alloc, 1) {
        Ok(power) => Ok(power),
        Err(PolyError::Exponent) => Err(Stop::Exponent),
        Err(PolyError::Memory) => Err(Stop::Memory),
    }
}

/// The product a * b, in a run: it spends no unit, and may pass the bound on exponents.
#[tactic(auto, unfolding(fm_graphs::specs::Bounds::multiplied))]
pub fn product(alloc: Global, a: &Matrix, b: &Matrix) -> Result<Matrix, Stop>
    requires ring { b.now.ring ≡ a.now.ring }
    requires inner { b.now.rows ≡ length a.now.columns }
    ensures follows { (r : Ring) (units : ℕ) → a.now.ring ≡ r → Follows (matrix_meaning r) result units units
        (multiplied r.prime r.vars (matrix_meaning r a.now) (matrix_meaning r b.now) units) }
    ensures ring { IfOk result (λ m. m.ring ≡ a.now.ring) }
    ensures rows { IfOk result (λ m. m.rows ≡ a.now.rows) }
    ensures count { IfOk result (λ m. length m.columns ≡ length b.now.columns) }
{
    match a.times(alloc, b) {
        Ok(product) => Ok(product),
        Err(PolyError::Exponent) => Err(Stop::Exponent),
        Err(PolyError::Memory) => Err(Stop::Memory),
    }
}
