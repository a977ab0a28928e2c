// The generating morphism.
ghost use Rattle.std.specs.Prelude.{IfOk, length, ℕ, ◌<◌, ◌≡◌};
ghost use Rattle.fm_graphs.specs.Graphs.{twisted_graph};
ghost use Rattle.fm_lift.specs.Lifts.{AreMatricesOver, matrices_meaning};
ghost use Rattle.fm_limit.specs.ResolvedIdeal.{matrix_at};
ghost use Rattle.fm_mat.specs.Matrices.{matrix_meaning};
ghost use Rattle.fm_plan.specs.Base.{morphism_work};
ghost use Rattle.fm_poly.specs.declared.ring.Ring.{Ring};
ghost use Rattle.fm_run.specs.Runs.{Follows};
ghost use Rattle.fm_syz.specs.GraphValues.{graph_meaning};

use fm_lift::product;
use fm_mat::Matrix;
use fm_poly::PolyError;
use fm_run::{Stop, Work};
use fm_syz::{Graph, lift_columns, twisted};
use std::alloc::Global;

/// The matrix u with `flip(theta) * Z = Z^[p] * u`, where there is one, for the graph of Z. It costs a flip, a product, a twist, and one
/// division for each column of Z.
pub(crate) fn morphism(
    alloc: Global,
    theta: &Matrix,
    z: &Graph,
    work: &mut Work,
) -> Result<Matrix, Stop>
    requires ring { theta.now.ring ≡ z.now.matrix.ring }
    requires rows { theta.now.rows ≡ z.now.matrix.rows }
    requires square { length theta.now.columns ≡ z.now.matrix.rows }
    ensures follows { let r = z.now.matrix.ring in Follows (matrix_meaning r) result work.old work.new
        (morphism_work r (matrix_meaning r theta.now) (graph_meaning r z.now) work.old) }
    ensures ring { IfOk result (λ m. m.ring ≡ z.now.matrix.ring) }
{
    let flip = theta.flip(alloc)?;
    let product = product(alloc, &flip, z.matrix())?;
    let power = power(alloc, z)?;
    lift_columns(alloc, &power, &product, work)
}

// The twist by p.
fn power(alloc: Global, z: &Graph) -> Result<Graph, Stop>
    ensures follows { (r : Ring) (units : ℕ) → z.now.matrix.ring ≡ r
        → Follows (λ g. graph_meaning r g) result units units (twisted_graph r 1 (graph_meaning r z.now) units) }
    ensures ring { IfOk result (λ g. g.matrix.ring ≡ z.now.matrix.ring) }
    ensures rows { IfOk result (λ g. g.matrix.rows ≡ z.now.matrix.rows) }
{
    match twisted(alloc, z, 1) {
        Ok(power) => Ok(power),
        Err(PolyError::Exponent) => Err(Stop::Exponent),
        Err(PolyError::Memory) => Err(Stop::Memory),
    }
}

/// The matrix of a lift with this number, counted from 0.
pub fn matrix_of(lift: &[Matrix], degree: u8) -> &Matrix
    requires { degree < length lift.now }
    ensures ring { (r : Ring) → AreMatricesOver r lift.now → result.now.ring ≡ r }
    ensures value { (r : Ring) → matrix_at r.prime r.vars (matrices_meaning r lift.now) degree ≡ matrix_meaning r result.now }
{
    &lift[usize::from(degree)]
}
