// The annihilator of a cokernel.
ghost use Rattle.std.specs.Prelude.{IfOk, length, true, ◌^◌, ◌<◌, ◌*◌, ◌≡◌, ◌≤◌, ◌↔◌};
ghost use Rattle.fm_algebra.specs.Polynomials.{Polynomial};
ghost use Rattle.fm_algebra.specs.PolynomialMatrices.{matrix_scalar};
ghost use Rattle.fm_graphs.specs.Trims.{preimage_run};
ghost use Rattle.fm_limit.specs.Facts as facts;
ghost use Rattle.fm_limit.specs.Facts.{ColumnsInImage, first_entries};
ghost use Rattle.fm_limit.specs.ResolvedIdeal.{InIdeal};
ghost use Rattle.fm_mat.specs.Matrices.{matrix_meaning};
ghost use Rattle.fm_plan.specs.Following.{FollowsPlan};
ghost use Rattle.fm_plan.specs.Tasks.{task};
ghost use Rattle.fm_run.specs.Runs.{Follows};
ghost use Rattle.fm_run.specs.declared.task.Name.TheVariants as names;
ghost use Rattle.fm_run.specs.declared.task.Side.TheVariants as sides;
ghost use Rattle.fm_syz.specs.GeneratorValues.{preimage_meaning};
ghost use Rattle.fm_syz.specs.GraphValues.{IsGraph};
ghost use Rattle.fm_support.specs.Annihilators.{Annihilates, annihilator_work};

use crate::blocks::{diagonal_blocks, unit_column};
use fm_run::{Name, Side, Stop, Stopped, Task, Work, in_task};
use fm_syz::{Graph, Preimage, preimage};
use std::alloc::Global;

/// A row that generates all a with `a * v` in the image of the graph's matrix for each v, by the task `annihilator`.
pub fn annihilator(alloc: Global, k: &Graph, work: &mut Work) -> Result<Preimage, Stopped>
    requires some { 1 ≤ k.now.matrix.ring.vars }
    requires few { k.now.matrix.ring.vars ≤ 8 }
    ensures follows { let r = k.now.matrix.ring in FollowsPlan (preimage_meaning r) result work.old work.new
        (task sides.Alone names.Annihilator 0 (annihilator_work r (matrix_meaning r k.now.matrix)) work.old) }
    ensures generates { IfOk result (Annihilates k.now.matrix.ring (matrix_meaning k.now.matrix.ring k.now.matrix)) }
    ensures ring { IfOk result (λ P. P.generators.graph.matrix.ring ≡ k.now.matrix.ring) }
{
    let task = Task {
        side: Side::Alone,
        name: Name::Annihilator,
        number: 0,
    };
    in_task(task, annihilator_row(alloc, k, work))
}

// The row, from the unit matrix as one column and copies of the matrix along the diagonal.
fn annihilator_row(alloc: Global, k: &Graph, work: &mut Work) -> Result<Preimage, Stop>
    requires some { 1 ≤ k.now.matrix.ring.vars }
    requires few { k.now.matrix.ring.vars ≤ 8 }
    ensures follows { let r = k.now.matrix.ring in Follows (preimage_meaning r) result work.old work.new
        (annihilator_work r (matrix_meaning r k.now.matrix) work.old) }
    ensures generates { IfOk result (Annihilates k.now.matrix.ring (matrix_meaning k.now.matrix.ring k.now.matrix)) }
    ensures ring { IfOk result (λ P. P.generators.graph.matrix.ring ≡ k.now.matrix.ring) }
{
    let g = k.rows();
    if !is_small(g, g) || !is_small(g, k.width()) {
        return Err(Stop::Memory);
    }
    let unit = unit_column(alloc, k.ring(), g)?;
    let blocks = diagonal_blocks(alloc, k.matrix())?;
    let row = preimage(alloc, &unit, &blocks, work)?;
    let _generators = row.generators();
    Ok(row)
}

// Whether the product is below 2^32.
fn is_small(a: u32, b: u32) -> bool
    ensures { result ≡ true ↔ (a * b < 2 ^ 32) }
{
    u64::from(a) * u64::from(b) < 4_294_967_296
}
