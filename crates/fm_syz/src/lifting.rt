// Lifts: the division of a vector above zeros.
ghost use Rattle.std.specs.Prelude.{IfOk, length, ◌≡◌};
ghost use Rattle.fm_complete.specs.Remainders.{remainder_of, remainder_value};
ghost use Rattle.fm_run.specs.Runs.{Follows, ended_with};
ghost use Rattle.fm_mat.specs.Matrices.{column_meaning};
ghost use Rattle.fm_graphs.specs.Graphs.{lift_run};
ghost use Rattle.fm_syz.specs.GraphValues.{IsGraph, graph_meaning, height};
ghost use Rattle.fm_vec.specs.Components.{AreOver};

use crate::graph::Graph;
use fm_complete::{Remainder, rest_of};
use fm_poly::Poly;
use fm_run::{Stop, Work};
use fm_vec::Vector;
use std::alloc::Global;

/// Divides (v; 0) by the members.
pub(crate) fn lift_rest(
    alloc: Global,
    g: &Graph,
    v: &[Poly],
    work: &mut Work,
) -> Result<Remainder, Stop>
    requires over { AreOver g.now.matrix.ring v.now }
    requires rows { length v.now ≡ g.now.matrix.rows }
    ensures follows { let r = g.now.matrix.ring in Follows remainder_value result work.old work.new
        (ended_with remainder_of (lift_run r (graph_meaning r g.now) (column_meaning r v.now) work.old)) }
    ensures complete { IsGraph g.now }
    ensures ring { IfOk result (λ x. x.rest.ring ≡ g.now.matrix.ring) }
    ensures rows { IfOk result (λ x. x.rest.rows ≡ height g.now) }
{
    let ring = g.ring();
    let members = g.members();
    let upper = Vector::from_column(alloc, ring, v)?;
    let _head = upper.head();
    let whole = Vector::from_falling(ring, g.rows() + g.width(), upper.into_terms());
    rest_of(alloc, members, &whole, work)
}
