// The lines on moves that kill a class.
ghost use Rattle.std.specs.Prelude.{OnOk, ◌≡◌};
ghost use Rattle.fm_certificates.specs.Certificates.{killed_claims, lives_claims};
ghost use Rattle.fm_certify.specs.Claims.{HasClaims};
ghost use Rattle.fm_chain.specs.Chains.{outside_value};
ghost use Rattle.fm_chain.specs.Stages.{IsKilledOver, killed_value};
ghost use Rattle.fm_ext.specs.Exts.{ring_of};
ghost use Rattle.fm_queries.specs.Bases.{base_meaning};
ghost use Rattle.fm_syz.specs.GraphValues.{graph_meaning};
ghost use Rattle.std.specs.Prelude.{option_map};

use crate::appending::{push_outside, push_vector};
use crate::bases::kernel;
use fm_chain::Killed;
use fm_queries::Base;
use fm_syz::{Graph, Outside};
use fm_writer::{Claim, Excluding, Named};
use std::alloc::AllocError;

/// `lives s-1` and `dies s`, or `lives t`.
pub(crate) fn push_killed<'a>(
    base: &'a Base,
    killed: &'a Killed,
    claims: &mut Vec<Claim<'a>>,
) -> Result<(), AllocError>
    requires { IsKilledOver (ring_of base.now.ext) killed.now }
    ensures { let r = ring_of base.now.ext in OnOk result (HasClaims r.vars claims.old.items
        (killed_claims r (base_meaning r base.now) (killed_value r killed.now)) claims.new.items) }
{
    match killed {
        Killed::At { moves, w, before } => {
            let last = moves.saturating_sub(1);
            push_lives(last, kernel(base, last as usize), before.as_ref(), claims)?;
            push_vector(Named::Dies(*moves), w.as_slice(), claims)
        }
        Killed::Never { before } => {
            let stable = base.chain().stable();
            push_lives(stable as u64, base.stable_kernel(), before.as_ref(), claims)
        }
    }
}

// `lives k`, where a vector lies outside of the image of the graph's matrix.
fn push_lives<'a>(
    k: u64,
    graph: &'a Graph,
    before: Option<&'a Outside>,
    claims: &mut Vec<Claim<'a>>,
) -> Result<(), AllocError>
    ensures { let r = graph.now.matrix.ring in OnOk result (HasClaims r.vars claims.old.items
        (lives_claims r k (graph_meaning r graph.now) (option_map (λ o. outside_value o.now) before.entry)) claims.new.items) }
{
    match before {
        Some(outside) => push_outside(Excluding::Lives(k), graph, outside, claims),
        None => Ok(()),
    }
}
