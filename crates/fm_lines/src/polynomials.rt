// Polynomials in lines.
ghost use Rattle.std.specs.Prelude.{◌≡◌, ◌≤◌, IfOk, IfSome, length, map, option_map, string_bytes};
ghost use Rattle.fm_words.specs.Parts.{parts};
ghost use Rattle.fm_cert.specs.Fields.{read_polynomial as read_polynomial_of, without_comma};

use fm_poly::{Poly, Ring};
use fm_text::{PolyFault, read_poly};
use fm_words::{Mark, two_parts};
use std::alloc::{AllocError, Global};

/// The text before a mark that stands once, at the end.
#[tactic(auto, using(crate::proofs::PolynomialsRead::by_pair))]
pub(crate) fn before_last(text: &[u8], mark: Mark) -> Option<&[u8]>
    ensures { option_map (λ t. t.now) result ≡ without_comma (parts mark text.entry.now) }
{
    let (front, behind) = two_parts(text, mark)?;
    if behind.is_empty() { Some(front) } else { None }
}

/// The polynomial that a text without blanks spells.
#[tactic(auto, using(crate::proofs::PolynomialsRead::of_ring), unfolding(fm_cert::specs::Fields::read_polynomial))]
pub(crate) fn polynomial(
    alloc: Global,
    ring: Ring,
    names: &[String],
    text: &[u8],
) -> Result<Option<Poly>, AllocError>
    requires named { length names.now ≡ ring.vars }
    requires some { 1 ≤ ring.vars }
    requires few { ring.vars ≤ 8 }
    ensures value { IfOk result (λ o. o ≡ read_polynomial_of ring (map string_bytes names.now) text.now) }
    ensures over { IfOk result (λ o. IfSome o (λ f. f.ring ≡ ring)) }
{
    match read_poly(alloc, ring, names, text) {
        Ok(f) => Ok(Some(f)),
        Err(PolyFault::Form) => Ok(None),
        Err(PolyFault::Exponent) => Ok(None),
        Err(PolyFault::Memory) => Err(AllocError),
    }
}
