// The text of a certificate.
ghost use Rattle.std.specs.Prelude.{IfOk, OnOk, length, map, string_bytes, ◌≡◌};
ghost use Rattle.fm_writer.specs.Claims.{AreClaimsOver, claim_values};
ghost use Rattle.fm_writer.specs.Writers.{HasClaimed, IsCertificate};

use crate::claim::{Claim, push_claim};
use crate::writer::Writer;
use std::alloc::{AllocError, Global};

/// The text of a certificate with these lines, over variables with these names: before each line stand the parts and the logs that it names and
/// that do not stand there yet, in the order in which it names them, operands first. The numbers in it are below 2^64.
pub fn certificate(
    alloc: Global,
    names: &[String],
    claims: &[Claim<'_>],
) -> Result<Vec<u8>, AllocError>
    requires { AreClaimsOver (length names.now) claims.now }
    ensures { IfOk result (λ text. IsCertificate (map string_bytes names.now) (claim_values claims.now) text.items) }
{
    let mut writer = Writer::new(alloc, names);
    push_claims(alloc, claims, &mut writer)?;
    Ok(writer.into_text())
}

// Appends lines, one after another.
fn push_claims(
    alloc: Global,
    claims: &[Claim<'_>],
    writer: &mut Writer<'_>,
) -> Result<(), AllocError>
    requires { AreClaimsOver (length writer.old.names) claims.now }
    ensures { OnOk result (HasClaimed writer.old (claim_values claims.now) writer.new) }
{
    for claim in claims {
        push_claim(alloc, claim, writer)?;
    }
    Ok(())
}
