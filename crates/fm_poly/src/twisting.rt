// Twists: each term is twisted, and their order stays.
ghost use Rattle.std.specs.Prelude.{IfOk, IsErrOf, OnOk, false, true, ◌≡◌};
ghost use Rattle.fm_algebra.specs.Polynomials.{frobenius_twist};
ghost use Rattle.fm_poly.specs.Bounds.{TwistFits, TwistPasses};
ghost use Rattle.fm_poly.specs.Polys.{IsCanonical, meaning};
ghost use Rattle.fm_poly.specs.Steps.{twist_terms, twists_fit};

use crate::{PolyError, Ring, Term};
use std::alloc::Global;

/// The twist by p^e.
pub(crate) fn twist_of(alloc: Global, ring: Ring, f: &[Term], e: u8) -> Result<Vec<Term>, PolyError>
    requires { IsCanonical ring f.now }
    ensures canonical { IfOk result (λ h. IsCanonical ring h.items) }
    ensures twist { IfOk result (λ h. meaning ring h.items
        ≡ frobenius_twist ring.prime ring.vars e (meaning ring f.now)) }
    ensures fits { OnOk result (TwistFits ring.prime ring.vars e (meaning ring f.now)) }
    ensures exponent { IsErrOf result PolyError.Exponent
        → TwistPasses ring.prime ring.vars e (meaning ring f.now) }
{
    let terms = twisted(alloc, ring, f, e)?;
    Ok(terms)
}

fn twisted(alloc: Global, ring: Ring, f: &[Term], e: u8) -> Result<Vec<Term>, PolyError>
    ensures terms { IfOk result (λ h. h.items ≡ twist_terms ring e f.now) }
    ensures fits { OnOk result (twists_fit ring e f.now ≡ true) }
    ensures exponent { IsErrOf result PolyError.Exponent → twists_fit ring e f.now ≡ false }
{
    let mut out = Vec::with_capacity(alloc, f.len())?;
    for t in f {
        let Some(mono) = t.mono.twist(ring.prime.value(), e) else {
            return Err(PolyError::Exponent);
        };
        out.push(Term {
            mono,
            coeff: t.coeff,
        })?;
    }
    Ok(out)
}
