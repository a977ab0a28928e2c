// The lines on whether a map is onto.
ghost use Rattle.std.specs.Prelude.{OnOk, length, option_copied, option_map, ◌-◌, ◌≡◌};
ghost use Rattle.fm_certificates.specs.Certificates.{link_claims, link_log, link_part, matrix_part, onto_claims, short_claims};
ghost use Rattle.fm_certify.specs.Claims.{HasClaims};
ghost use Rattle.fm_chain.specs.Chains.{outside_value};
ghost use Rattle.fm_induced.specs.Joins.{IsOntoOver, onto_value};
ghost use Rattle.fm_mat.specs.Matrices.{matrix_meaning};
ghost use Rattle.fm_report.specs.Parts as parts;
ghost use Rattle.fm_support.specs.Inverting.{AreColons, preimages_meaning};
ghost use Rattle.fm_syz.specs.GraphValues.{graph_meaning};
ghost use Rattle.fm_writer.specs.Claims.{IsOperandOver, operand_part};

use crate::appending::{push_matrix, push_preimage};
use crate::operands::{beside, join, matrix, twist, twist_of_join};
use fm_induced::Onto;
use fm_mat::Matrix;
use fm_syz::{Graph, Outside, Preimage};
use fm_writer::{Claim, Excluding, Generating, Named, Operand, Whole};
use std::alloc::AllocError;

/// `link 1`, `link 2`, .., then `short` and `onto`, or `closes` and `short`: u is the morphism, and the chain begins with n and phi beside one another.
pub(crate) fn push_onto<'a>(
    u: &'a Matrix,
    n: &'a Matrix,
    phi: &'a Matrix,
    onto: &'a Onto,
    claims: &mut Vec<Claim<'a>>,
) -> Result<(), AllocError>
    requires ring_n { n.now.ring ≡ u.now.ring }
    requires ring_phi { phi.now.ring ≡ u.now.ring }
    requires over { IsOntoOver u.now.ring onto.now }
    ensures { let r = u.now.ring in OnOk result (HasClaims r.vars claims.old.items
        (onto_claims r (matrix_part r (matrix_meaning r u.now)) (parts.beside (matrix_part r (matrix_meaning r n.now)) (matrix_part r (matrix_meaning r phi.now)))
        (onto_value r onto.now)) claims.new.items) }
{
    match onto {
        Onto::At {
            first,
            links,
            w,
            before,
        } => {
            let links = links.as_slice();
            push_links(u, n, phi, first, links, claims)?;
            push_short(n, phi, first, links, before.as_ref(), claims)?;
            push_matrix(Named::Onto(links.len() as u64), w, claims)
        }
        Onto::Never {
            first,
            links,
            w,
            proper,
        } => {
            let links = links.as_slice();
            push_links(u, n, phi, first, links, claims)?;
            let last = links.len().saturating_sub(1);
            push_matrix(Named::Closes(last as u64), w, claims)?;
            push_short(n, phi, first, links, Some(proper), claims)
        }
    }
}

// `link 1`, `link 2`, ..: what u sends into the image of the twist of [n | phi], then what it sends into the twist of that.
fn push_links<'a>(
    u: &'a Matrix,
    n: &'a Matrix,
    phi: &'a Matrix,
    first: &'a Graph,
    links: &'a [Preimage],
    claims: &mut Vec<Claim<'a>>,
) -> Result<(), AllocError>
    requires ring_n { n.now.ring ≡ u.now.ring }
    requires ring_phi { phi.now.ring ≡ u.now.ring }
    requires ring_first { first.now.matrix.ring ≡ u.now.ring }
    requires over { AreColons first.now links.now }
    ensures { let r = u.now.ring in OnOk result (HasClaims r.vars claims.old.items
        (link_claims r (matrix_part r (matrix_meaning r u.now)) 1 (parts.beside (matrix_part r (matrix_meaning r n.now)) (matrix_part r (matrix_meaning r phi.now)))
        (preimages_meaning r links.now)) claims.new.items) }
{
    let mut twisted = twist_of_join(n, phi);
    let mut number = 1;
    let mut left = links;
    'links: loop {
        let Some((link, later)) = left.split_first() else {
            return Ok(());
        };
        push_preimage(Generating::Link(number), beside(u, twisted), link, claims)?;
        twisted = twist(link.generators().found());
        number += 1;
        left = later;
    }
}

// `short s` for the link s before the last, where a column lies outside of it; the link 0 is [n | phi].
fn push_short<'a>(
    n: &'a Matrix,
    phi: &'a Matrix,
    first: &'a Graph,
    links: &'a [Preimage],
    outside: Option<&'a Outside>,
    claims: &mut Vec<Claim<'a>>,
) -> Result<(), AllocError>
    requires ring_n { n.now.ring ≡ first.now.matrix.ring }
    requires ring_phi { phi.now.ring ≡ first.now.matrix.ring }
    requires over { AreColons first.now links.now }
    ensures { let r = first.now.matrix.ring in OnOk result (HasClaims r.vars claims.old.items
        (short_claims r (parts.beside (matrix_part r (matrix_meaning r n.now)) (matrix_part r (matrix_meaning r phi.now))) (graph_meaning r first.now)
        (preimages_meaning r links.now) (length links.now - 1) (option_map outside_value (option_copied outside.entry))) claims.new.items) }
{
    let Some(outside) = outside else {
        return Ok(());
    };
    let s = links.len().saturating_sub(1);
    let (operand, graph) = before_the_last(n, phi, first, links, s);
    claims.push(Claim::Excluding {
        kind: Excluding::Short(s as u64),
        whole: Whole::One(operand),
        log: graph.log(),
        column: outside.column,
        by: outside.by.as_slice(),
    })?;
    Ok(())
}

// The part and the graph of link s.
fn before_the_last<'a>(
    n: &'a Matrix,
    phi: &'a Matrix,
    first: &'a Graph,
    links: &'a [Preimage],
    s: usize,
) -> (Operand<'a>, &'a Graph)
    requires ring_n { n.now.ring ≡ first.now.matrix.ring }
    requires ring_phi { phi.now.ring ≡ first.now.matrix.ring }
    requires over { AreColons first.now links.now }
    requires place { s ≡ length links.now - 1 }
    ensures part { let r = first.entry.now.matrix.ring in operand_part result.0
        ≡ link_part r (parts.beside (matrix_part r (matrix_meaning r n.entry.now)) (matrix_part r (matrix_meaning r phi.entry.now)))
        (preimages_meaning r links.entry.now) s }
    ensures log { let r = first.entry.now.matrix.ring in result.1.now.log
        ≡ link_log r (graph_meaning r first.entry.now) (preimages_meaning r links.entry.now) s }
    ensures over { IsOperandOver first.entry.now.matrix.ring.vars result.0 }
{
    if s == 0 {
        return (join(n, phi), first);
    }
    match links.get(s - 1) {
        Some(link) => {
            let graph = link.generators().graph();
            (matrix(graph.matrix()), graph)
        }
        None => (join(n, phi), first),
    }
}
