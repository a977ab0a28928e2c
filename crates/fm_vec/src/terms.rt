// Operations that go term by term.
ghost use Rattle.std.specs.Prelude.{IfOk, IsErrOf, OnOk, false, true, ◌<◌, ◌^◌, ◌≡◌};
ghost use Rattle.fm_gfp.specs.Primes.{prime_value};
ghost use Rattle.fm_term.specs.Multiples.{scaled, twisted};
ghost use Rattle.fm_vec.specs.Multiples.{twist_fits};
ghost use Rattle.fm_term.specs.Falling.{AreTerms};

use fm_gfp::Gf;
use fm_poly::{PolyError, Ring};
use fm_term::VTerm;
use std::alloc::{AllocError, Global};

/// c times the terms.
pub(crate) fn scale(
    alloc: Global,
    ring: Ring,
    c: Gf,
    terms: &[VTerm],
) -> Result<Vec<VTerm>, AllocError>
    requires below { c < prime_value ring.prime }
    requires terms { AreTerms ring.prime ring.vars terms.now }
    ensures { IfOk result (λ out. out.items ≡ scaled ring.prime c terms.now) }
{
    let mut out = Vec::with_capacity(alloc, terms.len())?;
    let mut terms = terms;
    'terms: loop {
        let Some((t, later)) = terms.split_first() else {
            return Ok(out);
        };
        out.push(VTerm {
            component: t.component,
            mono: t.mono,
            coeff: ring.prime.mul(c, t.coeff),
        })?;
        terms = later;
    }
}

/// The terms with every exponent multiplied by p^e.
pub(crate) fn twist_terms(
    alloc: Global,
    ring: Ring,
    e: u8,
    terms: &[VTerm],
) -> Result<Vec<VTerm>, PolyError>
    ensures value { IfOk result (λ out. out.items ≡ twisted (prime_value ring.prime ^ e) terms.now) }
    ensures fits { OnOk result (twist_fits (prime_value ring.prime ^ e) terms.now ≡ true) }
    ensures exponent { IsErrOf result PolyError.Exponent → twist_fits (prime_value ring.prime ^ e) terms.now ≡ false }
{
    let mut out = Vec::with_capacity(alloc, terms.len())?;
    let mut terms = terms;
    'terms: loop {
        let Some((t, later)) = terms.split_first() else {
            return Ok(out);
        };
        let Some(mono) = t.mono.twist(ring.prime.value(), e) else {
            return Err(PolyError::Exponent);
        };
        out.push(VTerm {
            component: t.component,
            mono,
            coeff: t.coeff,
        })?;
        terms = later;
    }
}
