// Whether a polynomial lies in an ideal.
ghost use Rattle.std.specs.Prelude.{IfOk, length, ◌+◌, ◌<◌, ◌^◌, ◌≡◌, ◌≤◌, ◌∷◌, []};
ghost use Rattle.fm_limit.specs.ResolvedIdeal.{InIdeal};
ghost use Rattle.fm_mat.specs.Matrices.{column_meaning};
ghost use Rattle.fm_plan.specs.Following.{FollowsPlan};
ghost use Rattle.fm_plan.specs.Queries.{ask_member, plan};
ghost use Rattle.fm_poly.specs.Polys.{meaning};
ghost use Rattle.fm_resolve.specs.Memberships.{IsMembership, membership_value};
ghost use Rattle.fm_run.specs.Runs.{Follows};
ghost use Rattle.fm_vec.specs.Components.{AreOver};
ghost use Rattle.fm_graphs.specs.Graphs as runs;
ghost use Rattle.fm_syz.specs.GraphValues.{graph_meaning};
ghost use Rattle.fm_syz.specs.Insides.{HasColumns, inside_value};
ghost use Rattle.fm_algebra.specs.PolynomialMatrices.{matrix_column};
ghost use Rattle.fm_limit.specs.ResolvedIdeal.{row};

use crate::rows::{first_graph, one_column};
use fm_mat::Column;
use fm_poly::{Poly, Ring};
use fm_run::{Name, Side, Stop, Stopped, Task, Work, in_task};
use fm_syz::{Graph, Inside, inside_of};
use std::alloc::Global;

/// The completed graph of the row of an ideal's generators, and how a polynomial lies to the ideal: the factors of the generators, or the rest
/// of its division.
#[derive(Drop)]
pub struct Membership {
    pub first: Graph,
    pub inside: Inside,
}

/// Whether f lies in the ideal of the generators, by the tasks `resolve 1` and `member`.
pub fn decide_member(
    alloc: Global,
    ring: Ring,
    generators: &[Poly],
    f: &Poly,
    work: &mut Work,
) -> Result<Membership, Stopped>
    requires some { 1 ≤ ring.vars }
    requires few { ring.vars ≤ 8 }
    requires generators { AreOver ring generators.now }
    requires room { length generators.now + 1 < 2 ^ 32 }
    requires polynomial { f.now.ring ≡ ring }
    ensures follows { let fs = column_meaning ring generators.now in let g = meaning ring f.now.terms in
        FollowsPlan (membership_value ring fs g) result work.old work.new (plan ring (ask_member fs g) work.old) }
    ensures ring { IfOk result (λ m. m.first.matrix.ring ≡ ring) }
    ensures columns { IfOk result (λ m. HasColumns ring (length m.first.matrix.columns) m.inside) }
    ensures decides { IfOk result (IsMembership ring (column_meaning ring generators.now) (meaning ring f.now.terms)) }
{
    let first = in_task(
        Task {
            side: Side::Alone,
            name: Name::Resolve,
            number: 1,
        },
        first_graph(alloc, ring, generators, work),
    )?;
    let inside = in_task(
        Task {
            side: Side::Alone,
            name: Name::Member,
            number: 0,
        },
        member_test(alloc, ring, &first, f, work),
    )?;
    Ok(Membership { first, inside })
}

/// Whether the column of f lies in the image of the row.
fn member_test(
    alloc: Global,
    ring: Ring,
    first: &Graph,
    f: &Poly,
    work: &mut Work,
) -> Result<Inside, Stop>
    requires ring { first.now.matrix.ring ≡ ring }
    requires row { first.now.matrix.rows ≡ 1 }
    requires polynomial { f.now.ring ≡ ring }
    ensures follows { Follows (inside_value ring) result work.old work.new
        (runs.inside_run ring (matrix_column ring.prime ring.vars (meaning ring f.now.terms ∷ [])) (graph_meaning ring first.now) work.old) }
    ensures columns { IfOk result (HasColumns ring (length first.now.matrix.columns)) }
{
    let mut entries = Vec::new(alloc);
    entries.push(f.copy(alloc)?)?;
    let column = one_column(alloc, ring, Column::new(entries))?;
    inside_of(alloc, &column, first, work)
}
