// Whether an induced map is onto.
ghost use Rattle.std.specs.Prelude.{IfOk, length, ◌≡◌, ◌≤◌};
ghost use Rattle.fm_induced.specs.Joins.{IsJoinedOver, IsOntoOver, joined_value, onto_value};
ghost use Rattle.fm_mat.specs.Matrices.{matrix_meaning};
ghost use Rattle.fm_plan.specs.Following.{FollowsPlan};
ghost use Rattle.fm_plan.specs.Queries.{onto_plan};
ghost use Rattle.fm_poly.specs.declared.ring.Ring.{Ring};

use crate::joins::{Joined, begin, joins_of, onto_task};
use fm_mat::Matrix;
use fm_run::{Stopped, Work, in_task};
use fm_syz::{Graph, Inside, Outside, Preimage};
use std::alloc::Global;

/// The chain that begins with the image of [N | Phi], whose completed graph is `first`, and goes on by preimages of twists under u, the links.
/// Either it comes to everything: the unit vectors are the last member times w, and one of them is outside the member before. Or it becomes stable
/// without: the last link is the member before it times w, and a unit vector is outside.
#[derive(Drop)]
pub enum Onto {
    At {
        first: Graph,
        links: Vec<Preimage>,
        w: Matrix,
        before: Option<Outside>,
    },
    Never {
        first: Graph,
        links: Vec<Preimage>,
        w: Matrix,
        proper: Outside,
    },
}

/// Whether the map with the matrix phi is onto in the limit, where n are the relations and u the generating morphism of the target: the tasks
/// `onto 0`, `onto 1`, .. A task costs a twist, a preimage, and one division for each unit vector and each column that is found.
pub fn is_onto(
    alloc: Global,
    n: &Matrix,
    phi: &Matrix,
    u: &Matrix,
    work: &mut Work,
) -> Result<Onto, Stopped>
    requires some { 1 ≤ n.now.ring.vars }
    requires few { n.now.ring.vars ≤ 8 }
    requires ring { phi.now.ring ≡ n.now.ring }
    requires rows { phi.now.rows ≡ n.now.rows }
    requires ring_u { u.now.ring ≡ n.now.ring }
    requires rows_u { u.now.rows ≡ n.now.rows }
    requires square { length u.now.columns ≡ n.now.rows }
    ensures follows { let r = n.now.ring in FollowsPlan (onto_value r) result work.old work.new
        (onto_plan r (matrix_meaning r n.now) (matrix_meaning r phi.now) (matrix_meaning r u.now) work.old) }
    ensures over { IfOk result (IsOntoOver n.now.ring) }
{
    let beginning = in_task(onto_task(0), begin(alloc, n, phi, work))?;
    let first = beginning.first;
    match beginning.whole {
        Inside::All(columns) => {
            let w = Matrix::new(first.ring(), first.width(), columns);
            Ok(Onto::At {
                first,
                links: Vec::new(alloc),
                w,
                before: None,
            })
        }
        Inside::First(proper) => {
            let joined = joins_of(alloc, u, &first, proper, work)?;
            Ok(with_first(first, joined))
        }
    }
}

// The answer with the graph from which the chain began.
fn with_first(first: Graph, joined: Joined) -> Onto
    requires over { IsJoinedOver first joined }
    ensures value { (r : Ring) → onto_value r result ≡ joined_value r first joined }
    ensures over { IsOntoOver first.matrix.ring result }
{
    match joined {
        Joined::Whole { links, w, before } => Onto::At {
            first,
            links,
            w,
            before: Some(before),
        },
        Joined::Stable { links, w, proper } => Onto::Never {
            first,
            links,
            w,
            proper,
        },
    }
}
