// What an induced map sends to zero.
ghost use Rattle.std.specs.Prelude.{IfOk, length, ◌≡◌, ◌≤◌};
ghost use Rattle.fm_algebra.specs.PolynomialMatrices.{GeneratesPreimage};
ghost use Rattle.fm_induced.specs.Fibres.{IsFibreOver, fibre_value};
ghost use Rattle.fm_mat.specs.Matrices.{matrix_meaning};
ghost use Rattle.fm_plan.specs.Following.{FollowsPlan};
ghost use Rattle.fm_plan.specs.Queries.{fibre_work};
ghost use Rattle.fm_plan.specs.Tasks.{task};
ghost use Rattle.fm_run.specs.Runs.{Follows};
ghost use Rattle.fm_run.specs.declared.task.Name.TheVariants as names;
ghost use Rattle.fm_run.specs.declared.task.Side.TheVariants as sides;
ghost use Rattle.fm_syz.specs.GraphValues.{graph_meaning};

use fm_mat::Matrix;
use fm_run::{Name, Side, Stop, Stopped, Task, Work, in_task};
use fm_syz::{Graph, Inside, Preimage, inside_of, preimage};
use std::alloc::Global;

/// Generators of what a map sends into an image, and whether they lie in an image on the other side.
#[derive(Drop)]
pub struct Fibre {
    pub fibre: Preimage,
    pub inside: Inside,
}

/// Whether the map is one to one in the limit: whether what phi sends into the image of k, the stable kernel of its target, lies in the image of
/// the graph's matrix, the stable kernel of its source. It is the task `one`.
pub fn is_one_to_one(
    alloc: Global,
    phi: &Matrix,
    k: &Matrix,
    source: &Graph,
    work: &mut Work,
) -> Result<Fibre, Stopped>
    requires some { 1 ≤ source.now.matrix.ring.vars }
    requires few { source.now.matrix.ring.vars ≤ 8 }
    requires ring { phi.now.ring ≡ source.now.matrix.ring }
    requires ring_k { k.now.ring ≡ source.now.matrix.ring }
    requires rows { phi.now.rows ≡ k.now.rows }
    requires count { length phi.now.columns ≡ source.now.matrix.rows }
    ensures follows { let r = source.now.matrix.ring in FollowsPlan (fibre_value r) result work.old work.new
        (task sides.Alone names.One 0 (fibre_work r (matrix_meaning r phi.now) (matrix_meaning r k.now) (graph_meaning r source.now)) work.old) }
    ensures over { IfOk result (IsFibreOver source.now.matrix.ring (length source.now.matrix.columns)) }
{
    let task = Task {
        side: Side::Alone,
        name: Name::One,
        number: 0,
    };
    in_task(task, fibre_of(alloc, phi, k, source, work))
}

fn fibre_of(
    alloc: Global,
    phi: &Matrix,
    k: &Matrix,
    source: &Graph,
    work: &mut Work,
) -> Result<Fibre, Stop>
    requires some { 1 ≤ source.now.matrix.ring.vars }
    requires few { source.now.matrix.ring.vars ≤ 8 }
    requires ring { phi.now.ring ≡ source.now.matrix.ring }
    requires ring_k { k.now.ring ≡ source.now.matrix.ring }
    requires rows { phi.now.rows ≡ k.now.rows }
    requires count { length phi.now.columns ≡ source.now.matrix.rows }
    ensures follows { let r = source.now.matrix.ring in Follows (fibre_value r) result work.old work.new
        (fibre_work r (matrix_meaning r phi.now) (matrix_meaning r k.now) (graph_meaning r source.now) work.old) }
    ensures over { IfOk result (IsFibreOver source.now.matrix.ring (length source.now.matrix.columns)) }
{
    let fibre = preimage(alloc, phi, k, work)?;
    let inside = inside_of(alloc, fibre.generators().found(), source, work)?;
    Ok(Fibre { fibre, inside })
}
