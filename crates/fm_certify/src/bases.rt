// The lines of Ext with its chain of kernels.
ghost use Rattle.std.specs.Prelude.{OnOk, length, ◌≡◌};
ghost use Rattle.fm_certificates.specs.Certificates.{base_claims, kernel_graph};
ghost use Rattle.fm_certify.specs.Claims.{HasClaims};
ghost use Rattle.fm_ext.specs.Exts.{ring_of};
ghost use Rattle.fm_queries.specs.Bases.{base_meaning};
ghost use Rattle.fm_syz.specs.GraphValues.{graph_meaning};

use crate::chains::push_chain;
use crate::exts::push_ext;
use fm_queries::Base;
use fm_syz::Graph;
use fm_writer::Claim;
use std::alloc::AllocError;

/// The lines of Ext, and those of the chain.
pub(crate) fn push_base<'a>(
    base: &'a Base,
    degree: u8,
    claims: &mut Vec<Claim<'a>>,
) -> Result<(), AllocError>
    requires { length base.now.ext.resolution.next ≡ degree }
    ensures { let r = ring_of base.now.ext in OnOk result (HasClaims r.vars claims.old.items (base_claims r degree (base_meaning r base.now)) claims.new.items) }
{
    let ext = base.ext();
    push_ext(ext, degree, claims)?;
    push_chain(
        ext.u(),
        ext.relations().generators().graph(),
        base.chain(),
        claims,
    )
}

/// The graph of K_s; that of K_0 where there is none.
pub(crate) fn kernel(base: &Base, s: usize) -> &Graph
    ensures value { let r = ring_of base.entry.now.ext in graph_meaning r result.now ≡ kernel_graph r (base_meaning r base.entry.now) s }
    ensures ring { result.now.matrix.ring ≡ ring_of base.entry.now.ext }
{
    let relations = base.ext().relations().generators().graph();
    if s == 0 {
        return relations;
    }
    match base.chain().links().get(s - 1) {
        Some(link) => link.generators().graph(),
        None => relations,
    }
}
