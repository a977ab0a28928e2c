// Coordinates of classes.
ghost use Rattle.std.specs.Prelude.{IfOk, length, ◌<◌, ◌^◌, ◌≡◌};
ghost use Rattle.fm_algebra.specs.PolynomialMatrices.{InImage, matrix_twist, vector_product};
ghost use Rattle.fm_mat.specs.Matrices.{column_meaning, matrix_meaning};
ghost use Rattle.fm_plan.specs.Following.{FollowsPlan};
ghost use Rattle.fm_plan.specs.Queries as plans;
ghost use Rattle.fm_plan.specs.Tasks.{task};
ghost use Rattle.fm_run.specs.Runs.{ended_with};
ghost use Rattle.fm_run.specs.declared.task.Name.TheVariants as names;
ghost use Rattle.fm_run.specs.declared.task.Side.TheVariants as sides;
ghost use Rattle.fm_syz.specs.GraphValues.{graph_meaning};
ghost use Rattle.fm_vec.specs.Components.{AreOver};

use crate::lifting_at::lift_at;
use fm_poly::Poly;
use fm_run::{Name, Side, Stopped, Task, Work, in_task};
use fm_syz::{Graph, Lifted};
use std::alloc::Global;

/// The coordinates w of a cocycle z of stage e, from the graph of generators Z of the cocycles of stage 0: `Z^[q] * w = z` for q = p^e. It is the
/// task `coordinates`. Of a vector that is no cocycle there are none.
pub fn coordinates(
    alloc: Global,
    e: u8,
    z: &[Poly],
    g: &Graph,
    work: &mut Work,
) -> Result<Vec<Poly>, Stopped>
    requires over { AreOver g.now.matrix.ring z.now }
    requires rows { length z.now ≡ g.now.matrix.rows }
    ensures follows { let r = g.now.matrix.ring in FollowsPlan (λ w. column_meaning r w.items) result work.old work.new
        (ended_with (plans.solution_of r) (task sides.Alone names.Coordinates 0 (plans.lift_at r e (graph_meaning r g.now) (column_meaning r z.now)) work.old)) }
    ensures over { IfOk result (λ w. AreOver g.now.matrix.ring w.items) }
    ensures few { IfOk result (λ w. length w.items < 2 ^ 32) }
    ensures length { let r = g.now.matrix.ring in let A = matrix_twist r.prime r.vars e (matrix_meaning r g.now.matrix) in
        InImage r.prime r.vars A (column_meaning r z.now) → IfOk result (λ w. length w.items ≡ length g.now.matrix.columns) }
    ensures solves { let r = g.now.matrix.ring in let A = matrix_twist r.prime r.vars e (matrix_meaning r g.now.matrix) in
        InImage r.prime r.vars A (column_meaning r z.now)
        → IfOk result (λ w. vector_product r.prime r.vars A (column_meaning r w.items) ≡ column_meaning r z.now) }
{
    let lifted = in_task(
        Task {
            side: Side::Alone,
            name: Name::Coordinates,
            number: 0,
        },
        lift_at(alloc, g, e, z, work),
    )?;
    match lifted {
        Lifted::InImage(w) => Ok(w),
        Lifted::NotInImage(_) => Ok(Vec::new(alloc)),
    }
}
