// The matrix of an induced map.
ghost use Rattle.std.specs.Prelude.{IfOk, length, ◌≡◌};
ghost use Rattle.fm_graphs.specs.Graphs.{inside_run};
ghost use Rattle.fm_mat.specs.Matrices.{matrix_meaning};
ghost use Rattle.fm_plan.specs.Following.{FollowsPlan};
ghost use Rattle.fm_plan.specs.Queries.{phi_work};
ghost use Rattle.fm_plan.specs.Tasks.{task};
ghost use Rattle.fm_run.specs.Runs.{Follows};
ghost use Rattle.fm_run.specs.declared.task.Name.TheVariants as names;
ghost use Rattle.fm_run.specs.declared.task.Side.TheVariants as sides;
ghost use Rattle.fm_syz.specs.GraphValues.{graph_meaning};
ghost use Rattle.fm_syz.specs.Insides.{HasColumns, IsInsideOf, inside_value};

use fm_lift::lift_of_product;
use fm_mat::Matrix;
use fm_run::{Name, Side, Stop, Stopped, Task, Work, in_task};
use fm_syz::{Graph, Inside, inside_of};
use std::alloc::Global;

/// The matrix x with `c * x = flip(lambda) * z` for the graph's matrix c, where there is one, by the task `phi`. The columns of z are cocycles of
/// one side, those of c generate the cocycles of the other.
pub fn phi(
    alloc: Global,
    lambda: &Matrix,
    z: &Matrix,
    g: &Graph,
    work: &mut Work,
) -> Result<Matrix, Stopped>
    requires ring { lambda.now.ring ≡ g.now.matrix.ring }
    requires rows { length lambda.now.columns ≡ g.now.matrix.rows }
    requires ring_z { z.now.ring ≡ g.now.matrix.ring }
    requires inner { z.now.rows ≡ lambda.now.rows }
    ensures follows { let r = g.now.matrix.ring in FollowsPlan (matrix_meaning r) result work.old work.new
        (task sides.Alone names.Phi 0 (phi_work r (matrix_meaning r lambda.now) (matrix_meaning r z.now) (graph_meaning r g.now)) work.old) }
    ensures ring { IfOk result (λ m. m.ring ≡ g.now.matrix.ring) }
    ensures rows { IfOk result (λ m. m.rows ≡ length g.now.matrix.columns) }
    ensures count { IfOk result (λ m. length m.columns ≡ length z.now.columns) }
{
    let task = Task {
        side: Side::Alone,
        name: Name::Phi,
        number: 0,
    };
    in_task(task, lifted_flip(alloc, lambda, z, g, work))
}

fn lifted_flip(
    alloc: Global,
    lambda: &Matrix,
    z: &Matrix,
    g: &Graph,
    work: &mut Work,
) -> Result<Matrix, Stop>
    requires ring { lambda.now.ring ≡ g.now.matrix.ring }
    requires rows { length lambda.now.columns ≡ g.now.matrix.rows }
    requires ring_z { z.now.ring ≡ g.now.matrix.ring }
    requires inner { z.now.rows ≡ lambda.now.rows }
    ensures follows { let r = g.now.matrix.ring in Follows (matrix_meaning r) result work.old work.new
        (phi_work r (matrix_meaning r lambda.now) (matrix_meaning r z.now) (graph_meaning r g.now) work.old) }
    ensures ring { IfOk result (λ m. m.ring ≡ g.now.matrix.ring) }
    ensures rows { IfOk result (λ m. m.rows ≡ length g.now.matrix.columns) }
    ensures count { IfOk result (λ m. length m.columns ≡ length z.now.columns) }
{
    let flipped = lambda.flip(alloc)?;
    lift_of_product(alloc, &flipped, z, g, work)
}

/// Whether the map is zero in the limit: whether the columns of phi lie in the image of the stable kernel, by the task `null`.
pub fn is_zero(alloc: Global, phi: &Matrix, k: &Graph, work: &mut Work) -> Result<Inside, Stopped>
    requires ring { phi.now.ring ≡ k.now.matrix.ring }
    requires rows { phi.now.rows ≡ k.now.matrix.rows }
    ensures follows { let r = k.now.matrix.ring in FollowsPlan (inside_value r) result work.old work.new
        (task sides.Alone names.Null 0 (inside_run r (matrix_meaning r phi.now) (graph_meaning r k.now)) work.old) }
    ensures columns { IfOk result (HasColumns k.now.matrix.ring (length k.now.matrix.columns)) }
    ensures decides { let r = k.now.matrix.ring in IfOk result (IsInsideOf r (matrix_meaning r k.now.matrix) (matrix_meaning r phi.now)) }
{
    let task = Task {
        side: Side::Alone,
        name: Name::Null,
        number: 0,
    };
    in_task(task, inside_of(alloc, phi, k, work))
}
