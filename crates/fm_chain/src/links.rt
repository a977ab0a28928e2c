// The next member of a chain of kernels.
ghost use Rattle.std.specs.Prelude.{IfOk, length, ◌≡◌, ◌≤◌};
ghost use Rattle.fm_chain.specs.Chains.{link_value};
ghost use Rattle.fm_mat.specs.Matrices.{matrix_meaning};
ghost use Rattle.fm_plan.specs.Base.{Links, chain_work};
ghost use Rattle.fm_run.specs.Runs.{Follows};
ghost use Rattle.fm_syz.specs.GraphValues.{graph_meaning};
ghost use Rattle.fm_syz.specs.Insides.{HasColumns};

use crate::twists::twisted_matrix;
use fm_mat::Matrix;
use fm_run::{Stop, Work};
use fm_syz::{Graph, Inside, Preimage, inside_of, preimage};
use std::alloc::Global;

/// A next member, and whether its columns lie in the image of the one before it.
#[derive(Drop)]
pub(crate) struct Link {
    pub member: Preimage,
    pub inside: Inside,
}

/// Generators of all w with `u * w` in the image of the twist of the member g, and whether they lie in that of g.
pub(crate) fn next_member(
    alloc: Global,
    u: &Matrix,
    g: &Graph,
    work: &mut Work,
) -> Result<Link, Stop>
    requires some { 1 ≤ g.now.matrix.ring.vars }
    requires few { g.now.matrix.ring.vars ≤ 8 }
    requires ring { u.now.ring ≡ g.now.matrix.ring }
    requires rows { u.now.rows ≡ g.now.matrix.rows }
    requires square { length u.now.columns ≡ g.now.matrix.rows }
    ensures follows { let r = g.now.matrix.ring in (c : Links r) → c.graph ≡ graph_meaning r g.now
        → Follows (link_value r c) result work.old work.new (chain_work r (matrix_meaning r u.now) c work.old) }
    ensures ring { IfOk result (λ x. x.member.generators.graph.matrix.ring ≡ g.now.matrix.ring) }
    ensures rows { IfOk result (λ x. x.member.generators.graph.matrix.rows ≡ g.now.matrix.rows) }
    ensures columns { IfOk result (λ x. HasColumns g.now.matrix.ring (length g.now.matrix.columns) x.inside) }
{
    let power = twisted_matrix(alloc, g.matrix(), 1)?;
    let member = preimage(alloc, u, &power, work)?;
    let inside = inside_of(alloc, member.generators().found(), g, work)?;
    Ok(Link { member, inside })
}
