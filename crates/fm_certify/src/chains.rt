// The lines of a chain of kernels.
ghost use Rattle.std.specs.Prelude.{OnOk, length, ◌≡◌};
ghost use Rattle.fm_certificates.specs.Certificates.{chain_claims, matrix_part};
ghost use Rattle.fm_certify.specs.Claims.{HasClaims};
ghost use Rattle.fm_chain.specs.Chains.{AreMembersOf, chain_meaning, member_graph};
ghost use Rattle.fm_mat.specs.Matrices.{AreColumns, matrix_meaning};
ghost use Rattle.fm_syz.specs.GraphValues.{graph_meaning};

use crate::appending::{push_columns, push_outside, push_preimage};
use crate::operands::{beside, twist};
use fm_chain::Chain;
use fm_mat::Matrix;
use fm_syz::Graph;
use fm_writer::{Claim, Excluding, Generating, Named};
use std::alloc::AllocError;

/// `chain 1`, `grows 0`, `chain 2`, `grows 1`, .., and at last `stable t`, for the chain that begins with the image of this graph's matrix.
pub(crate) fn push_chain<'a>(
    u: &'a Matrix,
    relations: &'a Graph,
    chain: &'a Chain,
    claims: &mut Vec<Claim<'a>>,
) -> Result<(), AllocError>
    requires ring { u.now.ring ≡ relations.now.matrix.ring }
    requires members { AreMembersOf relations.now.matrix.ring relations.now.matrix.rows chain.now.links }
    requires factor { AreColumns relations.now.matrix.ring
        (length (member_graph relations.now chain.now.links (length chain.now.growth)).matrix.columns) chain.now.w }
    ensures { let r = relations.now.matrix.ring in let c = chain_meaning r relations.now chain.now in OnOk result (HasClaims r.vars claims.old.items
        (chain_claims r (matrix_part r (matrix_meaning r u.now)) 0 (graph_meaning r relations.now) c.w c.links c.growth) claims.new.items) }
{
    let width = chain.stable_kernel(relations).width();
    let mut number = 0;
    let mut graph = relations;
    let mut links = chain.links();
    let mut growth = chain.growth();
    'links: loop {
        let Some((link, later)) = links.split_first() else {
            return Ok(());
        };
        let both = beside(u, twist(graph.matrix()));
        push_preimage(Generating::Chain(number + 1), both, link, claims)?;
        let Some((outside, more)) = growth.split_first() else {
            return push_columns(Named::Stable(number), width, chain.w(), claims);
        };
        push_outside(Excluding::Grows(number), graph, outside, claims)?;
        graph = link.generators().graph();
        number += 1;
        links = later;
        growth = more;
    }
}
