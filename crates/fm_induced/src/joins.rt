// The chain of kernels from [N | Phi], one link after another.
ghost use Rattle.std.specs.Prelude.{IfErr, IfOk, Some, [], length, ◌++◌, ◌<◌, ◌^◌, ◌∷◌, ◌≡◌, ◌≤◌, ℕ};
ghost use Rattle.fm_algebra.specs.PolynomialMatrices.{matrix_beside};
ghost use Rattle.fm_graphs.specs.Graphs as runs;
ghost use Rattle.fm_induced.specs.Joins.{GoesOn, IsJoinedOver, beginning_value, joined_value, joins_value, link_work, settle_work, turn_value};
ghost use Rattle.fm_mat.specs.Matrices.{AreColumns, columns_meaning, matrix_meaning};
ghost use Rattle.fm_plan.specs.Following.{FollowsPlan};
ghost use Rattle.fm_plan.specs.Queries as plans;
ghost use Rattle.fm_plan.specs.Tasks.{out_of_units};
ghost use Rattle.fm_run.specs.Runs.{Follows};
ghost use Rattle.fm_run.specs.Turns.{last, repeated};
ghost use Rattle.fm_run.specs.declared.task.Name.TheVariants as names;
ghost use Rattle.fm_run.specs.declared.task.Side.TheVariants as sides;
ghost use Rattle.fm_support.specs.Inverting.{AreColons, outside_value, preimages_meaning};
ghost use Rattle.fm_syz.specs.GeneratorValues.{preimage_meaning};
ghost use Rattle.fm_syz.specs.GraphValues.{graph_meaning};
ghost use Rattle.fm_syz.specs.Insides.{HasColumns};

use fm_lift::twisted;
use fm_mat::{Column, Matrix};
use fm_run::{Name, Side, Stop, Stopped, Task, Work, in_task};
use fm_support::newest;
use fm_syz::{Graph, Inside, Outside, Preimage, graph_of, inside_of, preimage, whole_of};
use std::alloc::Global;

/// The completed graph of [N | Phi], and whether its image is everything.
#[derive(Drop)]
pub(crate) struct Beginning {
    pub first: Graph,
    pub whole: Inside,
}

/// The links so far, none of which is everything, and the unit vector outside the last one.
#[derive(Drop)]
pub(crate) struct Joins {
    pub links: Vec<Preimage>,
    pub proper: Outside,
}

/// All links up to the first that is everything, or up to the first that adds nothing.
#[derive(Drop)]
pub(crate) enum Joined {
    Whole {
        links: Vec<Preimage>,
        w: Matrix,
        before: Outside,
    },
    Stable {
        links: Vec<Preimage>,
        w: Matrix,
        proper: Outside,
    },
}

/// How a turn ends.
#[derive(Drop)]
pub(crate) enum JoinTurn {
    Last(Joined),
    Again(Joins),
}

/// The task of a link.
pub(crate) fn onto_task(number: u64) -> Task
    ensures { result ≡ record { side = Side.Alone; name = Name.Onto; number = number } }
{
    Task {
        side: Side::Alone,
        name: Name::Onto,
        number,
    }
}

/// The graph of [n | phi], and whether its image is everything.
pub(crate) fn begin(
    alloc: Global,
    n: &Matrix,
    phi: &Matrix,
    work: &mut Work,
) -> Result<Beginning, Stop>
    requires some { 1 ≤ n.now.ring.vars }
    requires few { n.now.ring.vars ≤ 8 }
    requires ring { phi.now.ring ≡ n.now.ring }
    requires rows { phi.now.rows ≡ n.now.rows }
    ensures follows { let r = n.now.ring in Follows (beginning_value r) result work.old work.new
        (plans.join_work r (matrix_beside r.prime r.vars (matrix_meaning r n.now) (matrix_meaning r phi.now)) work.old) }
    ensures ring { IfOk result (λ b. b.first.matrix.ring ≡ n.now.ring) }
    ensures rows { IfOk result (λ b. b.first.matrix.rows ≡ n.now.rows) }
    ensures columns { IfOk result (λ b. HasColumns n.now.ring (length b.first.matrix.columns) b.whole) }
{
    if n.rows() as usize + n.columns().len() + phi.columns().len() > 4_294_967_295 {
        return Err(Stop::Memory);
    }
    let both = n.beside(alloc, phi)?;
    let first = graph_of(alloc, both, work)?;
    let whole = whole_of(alloc, &first, work)?;
    Ok(Beginning { first, whole })
}

/// The links from the graph on, up to the first that is everything or adds nothing: the tasks `onto 1`, `onto 2`, ..
pub(crate) fn joins_of(
    alloc: Global,
    u: &Matrix,
    first: &Graph,
    proper: Outside,
    work: &mut Work,
) -> Result<Joined, Stopped>
    requires ring { u.now.ring ≡ first.now.matrix.ring }
    requires rows { u.now.rows ≡ first.now.matrix.rows }
    requires square { length u.now.columns ≡ first.now.matrix.rows }
    requires some { 1 ≤ first.now.matrix.ring.vars }
    requires few { first.now.matrix.ring.vars ≤ 8 }
    ensures follows { let r = first.now.matrix.ring in FollowsPlan (joined_value r first.now) result work.old work.new
        (repeated (out_of_units sides.Alone names.Onto) (plans.join_turn r (matrix_meaning r u.now) (graph_meaning r first.now))
        (record { links = []; graph = graph_meaning r first.now; proper = outside_value proper }) work.old) }
    ensures over { IfOk result (IsJoinedOver first.now) }
{
    let mut c = Joins {
        links: Vec::new(alloc),
        proper,
    };
    'links: loop {
        match join_turn(alloc, u, first, c, work) {
            Ok(JoinTurn::Again(next)) => c = next,
            Ok(JoinTurn::Last(x)) => return Ok(x),
            Err(stopped) => return Err(stopped),
        }
    }
}

// The task `onto s`, after the links before it.
fn join_turn(
    alloc: Global,
    u: &Matrix,
    first: &Graph,
    c: Joins,
    work: &mut Work,
) -> Result<JoinTurn, Stopped>
    requires ring { u.now.ring ≡ first.now.matrix.ring }
    requires rows { u.now.rows ≡ first.now.matrix.rows }
    requires square { length u.now.columns ≡ first.now.matrix.rows }
    requires some { 1 ≤ first.now.matrix.ring.vars }
    requires few { first.now.matrix.ring.vars ≤ 8 }
    requires links { AreColons first.now c.links.items }
    ensures follows { let r = first.now.matrix.ring in FollowsPlan (turn_value r first.now) result work.old work.new
        (plans.join_turn r (matrix_meaning r u.now) (graph_meaning r first.now) (joins_value r first.now c) work.old) }
    ensures spent { IfOk result (GoesOn first.now work.old work.new) }
{
    let task = onto_task(c.links.len() as u64 + 1);
    in_task(task, next_join(alloc, u, first, c, work))
}

// The next link, and whether it is everything.
fn next_join(
    alloc: Global,
    u: &Matrix,
    first: &Graph,
    c: Joins,
    work: &mut Work,
) -> Result<JoinTurn, Stop>
    requires ring { u.now.ring ≡ first.now.matrix.ring }
    requires rows { u.now.rows ≡ first.now.matrix.rows }
    requires square { length u.now.columns ≡ first.now.matrix.rows }
    requires some { 1 ≤ first.now.matrix.ring.vars }
    requires few { first.now.matrix.ring.vars ≤ 8 }
    requires links { AreColons first.now c.links.items }
    ensures follows { let r = first.now.matrix.ring in Follows (turn_value r first.now) result work.old work.new
        (link_work r (matrix_meaning r u.now) (graph_meaning r first.now) (joins_value r first.now c) work.old) }
    ensures spent { IfOk result (GoesOn first.now work.old work.new) }
{
    let power = twisted(alloc, newest(first, &c.links).matrix())?;
    let x = preimage(alloc, u, &power, work)?;
    match whole_of(alloc, x.generators().graph(), work)? {
        Inside::All(columns) => reached(first, c, x, columns),
        Inside::First(outside) => settle(alloc, first, c, x, outside, work),
    }
}

// The link x, which is everything: unit vectors are it times these columns.
fn reached(first: &Graph, c: Joins, x: Preimage, columns: Vec<Column>) -> Result<JoinTurn, Stop>
    requires columns { AreColumns first.now.matrix.ring (length x.generators.graph.matrix.columns) columns.items }
    requires few { length columns.items < 2 ^ 32 }
    requires links { AreColons first.now c.links.items }
    requires ring { x.generators.graph.matrix.ring ≡ first.now.matrix.ring }
    requires rows { x.generators.graph.matrix.rows ≡ first.now.matrix.rows }
    ensures value { let r = first.now.matrix.ring in let h = graph_meaning r x.generators.graph in IfOk result (λ t. turn_value r first.now t
        ≡ last (plans.onto_at (graph_meaning r first.now) (preimages_meaning r c.links.items ++ preimage_meaning r x ∷ [])
        (record { rows = runs.width r h; columns = columns_meaning r columns.items }) (Some (outside_value c.proper)))) }
    ensures ended { IfOk result (λ t. (old new : ℕ) → GoesOn first.now old new t) }
    ensures memory { IfErr result (λ stop. stop ≡ Stop.Memory) }
{
    let width = x.generators().graph().width();
    let mut links = c.links;
    links.push(x)?;
    let w = Matrix::new(first.ring(), width, columns);
    Ok(JoinTurn::Last(Joined::Whole {
        links,
        w,
        before: c.proper,
    }))
}

// The link x, beside which the unit vector stands: whether it adds something to the one before it.
fn settle(
    alloc: Global,
    first: &Graph,
    c: Joins,
    x: Preimage,
    outside: Outside,
    work: &mut Work,
) -> Result<JoinTurn, Stop>
    requires links { AreColons first.now c.links.items }
    requires ring { x.generators.graph.matrix.ring ≡ first.now.matrix.ring }
    requires rows { x.generators.graph.matrix.rows ≡ first.now.matrix.rows }
    ensures follows { let r = first.now.matrix.ring in Follows (turn_value r first.now) result work.old work.new
        (settle_work r (graph_meaning r first.now) (joins_value r first.now c) (preimage_meaning r x) (outside_value outside) work.old) }
    ensures spent { IfOk result (GoesOn first.now work.old work.new) }
{
    let inside = inside_of(alloc, x.generators().found(), newest(first, &c.links), work)?;
    let width = newest(first, &c.links).width();
    let mut links = c.links;
    links.push(x)?;
    match inside {
        Inside::All(columns) => Ok(JoinTurn::Last(Joined::Stable {
            links,
            w: Matrix::new(first.ring(), width, columns),
            proper: c.proper,
        })),
        Inside::First(_) => Ok(JoinTurn::Again(Joins {
            links,
            proper: outside,
        })),
    }
}
