// Colons of an image by a polynomial, one after another.
ghost use Rattle.std.specs.Prelude.{IfOk, [], ◌≡◌, ◌≤◌};
ghost use Rattle.fm_mat.specs.Matrices.{matrix_meaning};
ghost use Rattle.fm_plan.specs.Following.{FollowsPlan};
ghost use Rattle.fm_plan.specs.Queries as plans;
ghost use Rattle.fm_plan.specs.Tasks.{out_of_units};
ghost use Rattle.fm_poly.specs.Polys.{meaning};
ghost use Rattle.fm_run.specs.Runs.{Follows};
ghost use Rattle.fm_run.specs.Turns.{repeated};
ghost use Rattle.fm_run.specs.declared.task.Name.TheVariants as names;
ghost use Rattle.fm_run.specs.declared.task.Side.TheVariants as sides;
ghost use Rattle.fm_support.specs.Inverting as values;
ghost use Rattle.fm_support.specs.Inverting.{AreColons, GoesOn, IsColonedOver, settle_work, colon_work, colons_value, coloned_value, outside_value, turn_value};
ghost use Rattle.fm_syz.specs.GeneratorValues.{preimage_meaning};
ghost use Rattle.fm_syz.specs.GraphValues.{graph_meaning};

use crate::scalars::scalar;
use fm_mat::Matrix;
use fm_poly::Poly;
use fm_run::{Name, Side, Stop, Stopped, Task, Work, in_task};
use fm_syz::{Graph, Inside, Outside, Preimage, inside_of, preimage, whole_of};
use std::alloc::Global;

/// The colons so far, none of which is everything, and the unit vector outside the last one.
#[derive(Drop)]
pub(crate) struct Colons {
    pub colons: Vec<Preimage>,
    pub proper: Outside,
}

/// The number of the first colon that is everything, or all colons up to the first that adds nothing.
#[derive(Drop)]
pub(crate) enum Coloned {
    Whole(u32),
    Stable {
        colons: Vec<Preimage>,
        w: Matrix,
        proper: Outside,
    },
}

/// How a turn ends.
#[derive(Drop)]
pub(crate) enum ColonTurn {
    Last(Coloned),
    Again(Colons),
}

/// The task of a colon.
pub(crate) fn colon_task(number: u64) -> Task
    ensures { result ≡ record { side = Side.Alone; name = Name.Colon; number = number } }
{
    Task {
        side: Side::Alone,
        name: Name::Colon,
        number,
    }
}

/// The colons of k by f, f^2, .. up to the first that is everything or adds nothing: the tasks `colon 1`, `colon 2`, ..
pub(crate) fn colons_of(
    alloc: Global,
    k: &Graph,
    f: &Poly,
    proper: Outside,
    work: &mut Work,
) -> Result<Coloned, Stopped>
    requires ring { f.now.ring ≡ k.now.matrix.ring }
    requires some { 1 ≤ k.now.matrix.ring.vars }
    requires few { k.now.matrix.ring.vars ≤ 8 }
    ensures follows { let r = k.now.matrix.ring in FollowsPlan (coloned_value r) result work.old work.new
        (repeated (out_of_units sides.Alone names.Colon) (plans.colon_turn r (meaning r f.now.terms))
        (record { colons = []; graph = graph_meaning r k.now; proper = outside_value proper }) work.old) }
    ensures over { IfOk result (IsColonedOver k.now) }
{
    let mut c = Colons {
        colons: Vec::new(alloc),
        proper,
    };
    'colons: loop {
        match colon_turn(alloc, k, f, c, work) {
            Ok(ColonTurn::Again(next)) => c = next,
            Ok(ColonTurn::Last(x)) => return Ok(x),
            Err(stopped) => return Err(stopped),
        }
    }
}

// The task `colon k`, after the colons before it.
fn colon_turn(
    alloc: Global,
    k: &Graph,
    f: &Poly,
    c: Colons,
    work: &mut Work,
) -> Result<ColonTurn, Stopped>
    requires ring { f.now.ring ≡ k.now.matrix.ring }
    requires some { 1 ≤ k.now.matrix.ring.vars }
    requires few { k.now.matrix.ring.vars ≤ 8 }
    requires colons { AreColons k.now c.colons.items }
    ensures follows { let r = k.now.matrix.ring in FollowsPlan (turn_value r k.now) result work.old work.new
        (plans.colon_turn r (meaning r f.now.terms) (colons_value r k.now c) work.old) }
    ensures spent { IfOk result (GoesOn k.now work.old work.new) }
{
    let task = colon_task(c.colons.len() as u64 + 1);
    in_task(task, next_colon(alloc, k, f, c, work))
}

// The next colon, and whether it is everything.
fn next_colon(
    alloc: Global,
    k: &Graph,
    f: &Poly,
    c: Colons,
    work: &mut Work,
) -> Result<ColonTurn, Stop>
    requires ring { f.now.ring ≡ k.now.matrix.ring }
    requires some { 1 ≤ k.now.matrix.ring.vars }
    requires few { k.now.matrix.ring.vars ≤ 8 }
    requires colons { AreColons k.now c.colons.items }
    ensures follows { let r = k.now.matrix.ring in Follows (turn_value r k.now) result work.old work.new
        (colon_work r (meaning r f.now.terms) (colons_value r k.now c) work.old) }
    ensures spent { IfOk result (GoesOn k.now work.old work.new) }
{
    if c.colons.len() >= 4_294_967_295 {
        return Err(Stop::Memory);
    }
    let before = newest(k, &c.colons);
    let factor = scalar(alloc, f, before.rows())?;
    let x = preimage(alloc, &factor, before.matrix(), work)?;
    match whole_of(alloc, x.generators().graph(), work)? {
        Inside::All(_) => {
            let count = c.colons.len() as u32;
            Ok(ColonTurn::Last(Coloned::Whole(count + 1)))
        }
        Inside::First(outside) => settle(alloc, k, c, x, outside, work),
    }
}

// The colon x, beside which the unit vector stands: whether it adds something to the one before it.
fn settle(
    alloc: Global,
    k: &Graph,
    c: Colons,
    x: Preimage,
    outside: Outside,
    work: &mut Work,
) -> Result<ColonTurn, Stop>
    requires colons { AreColons k.now c.colons.items }
    requires ring { x.generators.graph.matrix.ring ≡ k.now.matrix.ring }
    requires rows { x.generators.graph.matrix.rows ≡ k.now.matrix.rows }
    ensures follows { let r = k.now.matrix.ring in Follows (turn_value r k.now) result work.old work.new
        (settle_work r (colons_value r k.now c) (preimage_meaning r x) (outside_value outside) work.old) }
    ensures spent { IfOk result (GoesOn k.now work.old work.new) }
{
    let inside = inside_of(alloc, x.generators().found(), newest(k, &c.colons), work)?;
    let width = newest(k, &c.colons).width();
    let mut colons = c.colons;
    colons.push(x)?;
    match inside {
        Inside::All(columns) => Ok(ColonTurn::Last(Coloned::Stable {
            colons,
            w: Matrix::new(k.ring(), width, columns),
            proper: c.proper,
        })),
        Inside::First(_) => Ok(ColonTurn::Again(Colons {
            colons,
            proper: outside,
        })),
    }
}

/// The graph of the last of these preimages, or k where there is none. It takes no memory.
pub fn newest<'a>(k: &'a Graph, colons: &'a [Preimage]) -> &'a Graph
    ensures { result.now ≡ values.newest k.now colons.now }
{
    match colons.last() {
        Some(x) => x.generators().graph(),
        None => k,
    }
}
