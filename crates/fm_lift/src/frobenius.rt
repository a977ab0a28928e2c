// The lift of Frobenius.
ghost use Rattle.std.specs.Prelude.{IfOk, List, OnOk, [], ◌++◌, ◌∷◌, ◌≡◌, ◌≤◌, length, map, ℕ};
ghost use Rattle.fm_algebra.specs.PolynomialMatrices.{matrix_unit};
ghost use Rattle.fm_graphs.specs.Graphs.{MatrixOf};
ghost use Rattle.fm_limit.specs.ResolvedIdeal.{IsFrobeniusLiftOf, IsResolutionOf};
ghost use Rattle.fm_lift.specs.Lifts.{AreGraphs, AreGraphsFrom, AreInARow, AreMatricesOver, after_the_first, graphs_meaning, matrices_meaning};
ghost use Rattle.fm_mat.specs.Matrices.{matrix_meaning};
ghost use Rattle.fm_plan.specs.Base.{lift_work, lifting};
ghost use Rattle.fm_plan.specs.Results.{Ideal};
ghost use Rattle.fm_plan.specs.Following.{FollowsPlan};
ghost use Rattle.fm_run.specs.Runs.{Follows};
ghost use Rattle.fm_syz.specs.GraphValues.{IsGraph, graph_meaning};

use crate::kept::{keep, one};
use crate::steps::lift_through;
use fm_mat::Matrix;
use fm_poly::Ring;
use fm_run::{Name, Side, Stop, Stopped, Task, Work, in_task};
use fm_syz::Graph;
use std::alloc::Global;

/// The matrices theta_0 = (1), theta_1, .. with `d_j * theta_j = theta_(j-1) * d_j^[p]`, from the completed graphs of d_1, d_2, ..: the tasks
/// `lift 1`, `lift 2`, ..
pub fn frobenius_lift(
    alloc: Global,
    side: Side,
    ring: Ring,
    graphs: &[&Graph],
    work: &mut Work,
) -> Result<Vec<Matrix>, Stopped>
    requires some { 1 ≤ ring.vars }
    requires few { ring.vars ≤ 8 }
    requires row { AreInARow ring 1 (map (λ g. g.now) graphs.now) }
    ensures follows { FollowsPlan (λ ts. after_the_first (matrices_meaning ring ts.items)) result work.old work.new
        (lifting ring side 1 (matrix_unit ring.prime ring.vars 1) (graphs_meaning ring (map (λ g. g.now) graphs.now)) work.old) }
    ensures first { IfOk result (λ ts. matrices_meaning ring ts.items
        ≡ matrix_unit ring.prime ring.vars 1 ∷ after_the_first (matrices_meaning ring ts.items)) }
    ensures rings { IfOk result (λ ts. AreMatricesOver ring ts.items) }
    ensures lifts { (fs : Ideal ring) (i : ℕ) (ds : List (MatrixOf ring)) → IsResolutionOf ring.prime ring.vars fs i ds → length graphs.now ≤ i
        → AreGraphsFrom ring ds 0 (map (λ g. g.now) graphs.now)
        → IfOk result (λ ts. IsFrobeniusLiftOf ring.prime ring.vars (length graphs.now) ds (matrices_meaning ring ts.items)) }
{
    let mut number = 0;
    let mut thetas = Vec::new(alloc);
    let mut theta = in_task(lift_task(side, number), one(alloc, ring))?;
    for g in graphs {
        number += 1;
        theta = in_task(
            lift_task(side, number),
            next_theta(alloc, &mut thetas, theta, g, work),
        )?;
    }
    in_task(lift_task(side, number), keep(&mut thetas, theta))?;
    Ok(thetas)
}

fn lift_task(side: Side, number: u64) -> Task
    ensures { result ≡ record { side = side; name = Name.Lift; number = number } }
{
    Task {
        side,
        name: Name::Lift,
        number,
    }
}

// The next matrix, through g; the one before it is kept.
fn next_theta(
    alloc: Global,
    thetas: &mut Vec<Matrix>,
    theta: Matrix,
    g: &Graph,
    work: &mut Work,
) -> Result<Matrix, Stop>
    requires ring { theta.ring ≡ g.now.matrix.ring }
    requires rows { theta.rows ≡ g.now.matrix.rows }
    requires inner { length theta.columns ≡ g.now.matrix.rows }
    ensures follows { let r = g.now.matrix.ring in Follows (matrix_meaning r) result work.old work.new
        (lift_work r (matrix_meaning r theta) (graph_meaning r g.now) work.old) }
    ensures complete { IsGraph g.now }
    ensures kept { OnOk result (thetas.new.items ≡ thetas.old.items ++ theta ∷ []) }
    ensures ring { IfOk result (λ m. m.ring ≡ g.now.matrix.ring) }
    ensures rows { IfOk result (λ m. m.rows ≡ length g.now.matrix.columns) }
    ensures count { IfOk result (λ m. length m.columns ≡ length g.now.matrix.columns) }
{
    let next = lift_through(alloc, &theta, g, work)?;
    thetas.push(theta)?;
    Ok(next)
}
