// The lines of a map between two modules.
ghost use Rattle.std.specs.Prelude.{OnOk, length, ◌≡◌};
ghost use Rattle.fm_certificates.specs.Certificates.{between_claims};
ghost use Rattle.fm_certify.specs.Claims.{HasClaims};
ghost use Rattle.fm_ext.specs.Exts.{ring_of};
ghost use Rattle.fm_induced.specs.Fibres.{fibre_value};
ghost use Rattle.fm_induced.specs.Joins.{onto_value};
ghost use Rattle.fm_lift.specs.Lifts.{matrices_meaning};
ghost use Rattle.fm_mat.specs.Matrices.{matrix_meaning};
ghost use Rattle.fm_queries.specs.Bases.{base_meaning};
ghost use Rattle.fm_queries.specs.Maps.{IsMapOver};
ghost use Rattle.fm_syz.specs.Insides.{inside_value};

use crate::appending::{push_matrix, push_preimage};
use crate::inside::push_inside;
use crate::joins::push_onto;
use crate::operands::{beside, matrix};
use crate::series::{Series, push_series};
use fm_queries::Map;
use fm_writer::{Claim, Excluding, Generating, Named};
use std::alloc::AllocError;

/// The lift of the identity, phi, and whether the map is zero, one to one and onto.
pub(crate) fn push_between<'a>(map: &'a Map, claims: &mut Vec<Claim<'a>>) -> Result<(), AllocError>
    requires { IsMapOver (ring_of map.now.source.ext) map.now }
    ensures { let r = ring_of map.now.source.ext in let x = map.now in let one = fibre_value r x.fibre in OnOk result (HasClaims r.vars claims.old.items
        (between_claims r (base_meaning r x.source) (base_meaning r x.target) (matrices_meaning r x.lambda.items) (matrix_meaning r x.phi)
        (inside_value r x.null) one.0 one.1 (onto_value r x.onto)) claims.new.items) }
{
    let target = map.target.stable_kernel();
    let ext = map.target.ext();
    push_series(Series::Identity, map.lambda.as_slice(), claims)?;
    push_matrix(Named::Phi, &map.phi, claims)?;
    push_inside(target, &map.null, Named::Null, Excluding::NonNull, claims)?;
    let both = beside(&map.phi, matrix(target.matrix()));
    push_preimage(Generating::Fibre, both, &map.fibre.fibre, claims)?;
    push_inside(
        map.source.stable_kernel(),
        &map.fibre.inside,
        Named::One,
        Excluding::NotOne,
        claims,
    )?;
    push_onto(
        ext.u(),
        ext.relations().generators().found(),
        &map.phi,
        &map.onto,
        claims,
    )
}
