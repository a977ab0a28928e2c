// The lines on powers of a polynomial, and on what they send into an image.
ghost use Rattle.std.specs.Prelude.{OnOk, length, option_copied, option_map, ◌+◌, ◌<◌, ◌^◌, ◌≡◌};
ghost use Rattle.fm_algebra.specs.Polynomials.{Polynomial};
ghost use Rattle.fm_algebra.specs.PolynomialMatrices.{matrix_scalar};
ghost use Rattle.fm_certificates.specs.Certificates.{colon_claims, graphs_found, inverted_claims, last_but_one, least_claims};
ghost use Rattle.fm_certify.specs.Claims.{HasClaims};
ghost use Rattle.fm_chain.specs.Chains.{outside_value};
ghost use Rattle.fm_ext.specs.Exts.{ring_of};
ghost use Rattle.fm_mat.specs.Matrices.{matrix_meaning};
ghost use Rattle.fm_queries.specs.Bases.{base_meaning, stable_graph};
ghost use Rattle.fm_support.specs.Inverting.{AreColons, IsInvertedOver, inverted_value, preimages_meaning};
ghost use Rattle.fm_syz.specs.GraphValues.{graph_meaning};

use crate::appending::{push_matrix, push_outside, push_preimage};
use crate::operands::{beside, matrix};
use fm_mat::Matrix;
use fm_queries::Base;
use fm_support::Inverted;
use fm_syz::{Graph, Outside, Preimage};
use fm_writer::{Claim, Excluding, Generating, Named};
use std::alloc::AllocError;

/// `power` and `least`, or `colon 1`, `colon 2`, .., `settles` and `proper`. The matrix is f times the unit matrix.
pub(crate) fn push_inverted<'a>(
    base: &'a Base,
    scalar: &'a Matrix,
    inverted: &'a Inverted,
    claims: &mut Vec<Claim<'a>>,
) -> Result<(), AllocError>
    requires ring { scalar.now.ring ≡ ring_of base.now.ext }
    requires over { IsInvertedOver (stable_graph base.now) inverted.now }
    ensures { let r = ring_of base.now.ext in (f : Polynomial r.prime r.vars)
        → matrix_meaning r scalar.now ≡ matrix_scalar r.prime r.vars f (stable_graph base.now).matrix.rows
        → OnOk result (HasClaims r.vars claims.old.items (inverted_claims r (base_meaning r base.now) f (inverted_value r inverted.now)) claims.new.items) }
{
    let stable = base.stable_kernel();
    match inverted {
        Inverted::Power { w, before, .. } => {
            push_matrix(Named::Power, w, claims)?;
            push_least(stable, before.as_ref(), claims)
        }
        Inverted::Never { colons, w, proper } => {
            let colons = colons.as_slice();
            push_colons(scalar, stable, colons, claims)?;
            push_matrix(Named::Settles(colons.len() as u64), w, claims)?;
            push_outside(
                Excluding::Proper,
                before_the_last(stable, colons),
                proper,
                claims,
            )
        }
    }
}

// `least`, where a column lies outside.
fn push_least<'a>(
    graph: &'a Graph,
    before: Option<&'a Outside>,
    claims: &mut Vec<Claim<'a>>,
) -> Result<(), AllocError>
    ensures { let r = graph.now.matrix.ring in OnOk result (HasClaims r.vars claims.old.items
        (least_claims r (graph_meaning r graph.now) (option_map outside_value (option_copied before.entry))) claims.new.items) }
{
    match before {
        Some(outside) => push_outside(Excluding::Least, graph, outside, claims),
        None => Ok(()),
    }
}

// `colon 1`, `colon 2`, ..: what f sends into the image of the matrix of this graph, then what it sends into that.
fn push_colons<'a>(
    scalar: &'a Matrix,
    first: &'a Graph,
    colons: &'a [Preimage],
    claims: &mut Vec<Claim<'a>>,
) -> Result<(), AllocError>
    requires ring { scalar.now.ring ≡ first.now.matrix.ring }
    requires over { AreColons first.now colons.now }
    ensures { let r = first.now.matrix.ring in (f : Polynomial r.prime r.vars)
        → matrix_meaning r scalar.now ≡ matrix_scalar r.prime r.vars f first.now.matrix.rows
        → OnOk result (HasClaims r.vars claims.old.items
        (colon_claims r f 1 (matrix_meaning r first.now.matrix) (preimages_meaning r colons.now)) claims.new.items) }
{
    let mut before = first.matrix();
    let mut number = 1;
    let mut left = colons;
    'colons: loop {
        let Some((colon, later)) = left.split_first() else {
            return Ok(());
        };
        let both = beside(scalar, matrix(before));
        push_preimage(Generating::Colon(number), both, colon, claims)?;
        before = colon.generators().found();
        number += 1;
        left = later;
    }
}

// The graph of the last colon but one; the first graph where there is one colon.
fn before_the_last<'a>(first: &'a Graph, colons: &'a [Preimage]) -> &'a Graph
    ensures graph { let r = first.entry.now.matrix.ring in graph_meaning r result.now
        ≡ last_but_one r (graph_meaning r first.entry.now) (graphs_found r (preimages_meaning r colons.entry.now)) }
    ensures ring { AreColons first.entry.now colons.entry.now → result.now.matrix.ring ≡ first.entry.now.matrix.ring }
{
    let mut before = first;
    let mut left = colons;
    'colons: loop {
        let Some((colon, later)) = left.split_first() else {
            return before;
        };
        if later.is_empty() {
            return before;
        }
        before = colon.generators().graph();
        left = later;
    }
}
