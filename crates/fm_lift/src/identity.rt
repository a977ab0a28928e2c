// The lift of the identity.
ghost use Rattle.std.specs.Prelude.{IfOk, List, OnOk, [], ◌++◌, ◌∷◌, ◌≡◌, ◌≤◌, length, map, take, ℕ};
ghost use Rattle.fm_algebra.specs.PolynomialMatrices.{matrix_unit};
ghost use Rattle.fm_graphs.specs.Graphs.{MatrixOf};
ghost use Rattle.fm_limit.specs.Facts.{ColumnsInImage};
ghost use Rattle.fm_limit.specs.ResolvedIdeal.{IsLiftOfIdentityOf, IsResolutionOf, row};
ghost use Rattle.fm_lift.specs.Lifts.{AreAligned, AreGraphsFrom, AreMatricesOver, after_the_first, graphs_meaning, matrices_meaning, product_work};
ghost use Rattle.fm_mat.specs.Matrices.{matrix_meaning};
ghost use Rattle.fm_plan.specs.Following.{FollowsPlan};
ghost use Rattle.fm_plan.specs.Queries as plans;
ghost use Rattle.fm_plan.specs.Results.{Ideal};
ghost use Rattle.fm_run.specs.Runs.{Follows};
ghost use Rattle.fm_syz.specs.GraphValues.{IsGraph, graph_meaning};

use crate::kept::{keep, one};
use crate::steps::lift_of_product;
use fm_mat::Matrix;
use fm_poly::Ring;
use fm_run::{Name, Side, Stop, Stopped, Task, Work, in_task};
use fm_syz::Graph;
use std::alloc::Global;

/// The matrices lambda_0 = (1), lambda_1, .. with `e_j * lambda_j = lambda_(j-1) * d_j`, from d_1, d_2, .. and the completed graphs of
/// e_1, e_2, ..: the tasks `lambda 1`, `lambda 2`, ..
pub fn over_identity(
    alloc: Global,
    ring: Ring,
    differentials: &[&Matrix],
    graphs: &[&Graph],
    work: &mut Work,
) -> Result<Vec<Matrix>, Stopped>
    requires some { 1 ≤ ring.vars }
    requires few { ring.vars ≤ 8 }
    requires count { length differentials.now ≡ length graphs.now }
    requires row { AreAligned ring 1 1 (map (λ d. d.now) differentials.now) (map (λ g. g.now) graphs.now) }
    ensures follows { FollowsPlan (λ ls. after_the_first (matrices_meaning ring ls.items)) result work.old work.new
        (plans.over_identity ring 1 (matrix_unit ring.prime ring.vars 1) (matrices_meaning ring (map (λ d. d.now) differentials.now))
        (graphs_meaning ring (map (λ g. g.now) graphs.now)) work.old) }
    ensures first { IfOk result (λ ls. matrices_meaning ring ls.items
        ≡ matrix_unit ring.prime ring.vars 1 ∷ after_the_first (matrices_meaning ring ls.items)) }
    ensures rings { IfOk result (λ ls. AreMatricesOver ring ls.items) }
    ensures lifts { (fs gs : Ideal ring) (i : ℕ) (ds us : List (MatrixOf ring))
        → IsResolutionOf ring.prime ring.vars gs i ds → IsResolutionOf ring.prime ring.vars fs i us
        → ColumnsInImage ring.prime ring.vars (row ring.prime ring.vars fs) (row ring.prime ring.vars gs)
        → length graphs.now ≡ i → matrices_meaning ring (map (λ d. d.now) differentials.now) ≡ take i ds
        → AreGraphsFrom ring us 0 (map (λ g. g.now) graphs.now)
        → IfOk result (λ ls. IsLiftOfIdentityOf ring.prime ring.vars i ds us (matrices_meaning ring ls.items)) }
{
    let mut number = 0;
    let mut lambdas = Vec::new(alloc);
    let mut lambda = in_task(lambda_task(number), one(alloc, ring))?;
    for k in 0..graphs.len() {
        number += 1;
        lambda = in_task(
            lambda_task(number),
            next_lambda(
                alloc,
                &mut lambdas,
                lambda,
                differentials[k],
                graphs[k],
                work,
            ),
        )?;
    }
    in_task(lambda_task(number), keep(&mut lambdas, lambda))?;
    Ok(lambdas)
}

fn lambda_task(number: u64) -> Task
    ensures { result ≡ record { side = Side.Alone; name = Name.Lambda; number = number } }
{
    Task {
        side: Side::Alone,
        name: Name::Lambda,
        number,
    }
}

// The next matrix, through g; the one before it is kept.
fn next_lambda(
    alloc: Global,
    lambdas: &mut Vec<Matrix>,
    lambda: Matrix,
    d: &Matrix,
    g: &Graph,
    work: &mut Work,
) -> Result<Matrix, Stop>
    requires ring { lambda.ring ≡ g.now.matrix.ring }
    requires rows { lambda.rows ≡ g.now.matrix.rows }
    requires ring_d { d.now.ring ≡ g.now.matrix.ring }
    requires inner { d.now.rows ≡ length lambda.columns }
    ensures follows { let r = g.now.matrix.ring in Follows (matrix_meaning r) result work.old work.new
        (product_work r (matrix_meaning r lambda) (matrix_meaning r d.now) (graph_meaning r g.now) work.old) }
    ensures complete { IsGraph g.now }
    ensures kept { OnOk result (lambdas.new.items ≡ lambdas.old.items ++ lambda ∷ []) }
    ensures ring { IfOk result (λ m. m.ring ≡ g.now.matrix.ring) }
    ensures rows { IfOk result (λ m. m.rows ≡ length g.now.matrix.columns) }
    ensures count { IfOk result (λ m. length m.columns ≡ length d.now.columns) }
{
    let _matrix = g.matrix();
    let next = lift_of_product(alloc, &lambda, d, g, work)?;
    lambdas.push(lambda)?;
    Ok(next)
}
