// Multiples by numbers: each term is multiplied, and their order stays.
ghost use Rattle.std.specs.Prelude.{All, IfOk, ◌<◌, ◌≡◌};
ghost use Rattle.fm_gfp.specs.Primes.{prime_value};
ghost use Rattle.fm_algebra.specs.Polynomials.{polynomial_multiple};
ghost use Rattle.fm_poly.specs.Polys.{IsCanonical, IsTermOf, meaning};
ghost use Rattle.fm_poly.specs.Steps.{scaled_terms};

use crate::{Ring, Term};
use fm_gfp::Gf;
use std::alloc::{AllocError, Global};

/// The multiple by c.
pub(crate) fn multiple_of(
    alloc: Global,
    ring: Ring,
    f: &[Term],
    c: Gf,
) -> Result<Vec<Term>, AllocError>
    requires canonical { IsCanonical ring f.now }
    requires below { c < prime_value ring.prime }
    ensures canonical { IfOk result (λ h. IsCanonical ring h.items) }
    ensures multiple { IfOk result (λ h. meaning ring h.items
        ≡ polynomial_multiple ring.prime ring.vars c (meaning ring f.now)) }
{
    if c.number() == 0 {
        return Ok(Vec::new(alloc));
    }
    let terms = scaled(alloc, ring, f, c)?;
    Ok(terms)
}

fn scaled(alloc: Global, ring: Ring, f: &[Term], c: Gf) -> Result<Vec<Term>, AllocError>
    requires factor { c < prime_value ring.prime }
    requires terms { All (IsTermOf ring) f.now }
    ensures { IfOk result (λ h. h.items ≡ scaled_terms ring c f.now) }
{
    let mut out = Vec::with_capacity(alloc, f.len())?;
    for t in f {
        out.push(Term {
            mono: t.mono,
            coeff: ring.prime.mul(c, t.coeff),
        })?;
    }
    Ok(out)
}
