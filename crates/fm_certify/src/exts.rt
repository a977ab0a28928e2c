// The lines of Ext and its generating morphism.
ghost use Rattle.std.specs.Prelude.{OnOk, length, ◌≡◌, ◌≤◌};
ghost use Rattle.fm_certificates.specs.Certificates.{codifferential_part, ext_claims};
ghost use Rattle.fm_certify.specs.Claims.{HasClaims};
ghost use Rattle.fm_ext.specs.Exts.{ext_meaning, ring_of};
ghost use Rattle.fm_resolve.specs.Resolutions.{resolution_value};
ghost use Rattle.fm_writer.specs.Claims.{IsOperandOver, operand_part};

use crate::appending::{push_matrix, push_preimage};
use crate::operands::{beside, flip};
use crate::resolutions::push_resolution;
use crate::series::{Series, push_series};
use fm_ext::Ext;
use fm_resolve::Resolution;
use fm_writer::{Claim, Generating, Named, Operand, Whole};
use std::alloc::AllocError;

/// The resolution, the lift of Frobenius, the cocycles, the relations, and the morphism.
pub(crate) fn push_ext<'a>(
    ext: &'a Ext,
    degree: u8,
    claims: &mut Vec<Claim<'a>>,
) -> Result<(), AllocError>
    requires { length ext.now.resolution.next ≡ degree }
    ensures { let r = ring_of ext.now in OnOk result (HasClaims r.vars claims.old.items (ext_claims r degree (ext_meaning r ext.now)) claims.new.items) }
{
    let resolution = ext.resolution();
    push_resolution(resolution, claims)?;
    push_series(Series::Frobenius, ext.lift(), claims)?;
    let up = flip(resolution.differential(usize::from(degree) + 1));
    push_preimage(Generating::Cocycles, Whole::One(up), ext.cocycles(), claims)?;
    let cocycles = ext.cocycles().generators().found();
    let both = beside(cocycles, codifferential(resolution, degree));
    push_preimage(Generating::Relations, both, ext.relations(), claims)?;
    push_matrix(Named::Morphism, ext.u(), claims)
}

// d_i as a map to cochains; of d_0, which has no rows, it has no columns.
fn codifferential(resolution: &Resolution, degree: u8) -> Operand<'_>
    requires { degree ≤ length resolution.now.next }
    ensures value { let r = resolution.entry.now.first.matrix.ring in
        operand_part result ≡ codifferential_part r (resolution_value r resolution.entry.now) degree }
    ensures over { IsOperandOver resolution.entry.now.first.matrix.ring.vars result }
{
    if degree == 0 {
        return Operand::Columns(1, &[]);
    }
    flip(resolution.differential(usize::from(degree)))
}
