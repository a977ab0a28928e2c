// Products: the rows, a term times a polynomial each, are merged by halves.
ghost use Rattle.std.specs.Prelude.{All, IfOk, IsErrOf, OnOk, false, true, ◌≡◌, ◌≤◌};
ghost use Rattle.fm_algebra.specs.Polynomials.{polynomial_one, polynomial_power, polynomial_product};
ghost use Rattle.fm_poly.specs.Bounds.{PowerFits, PowerPasses, ProductFits, ProductPasses};
ghost use Rattle.fm_poly.specs.Polys.{IsCanonical, IsTermOf, meaning};
ghost use Rattle.fm_poly.specs.Steps.{products_fit, row_fits, row_terms};

use crate::merging::merge;
use crate::{PolyError, Ring, Term};
use fm_mono::Mono;
use std::alloc::Global;

fn row(alloc: Global, ring: Ring, t: &Term, g: &[Term]) -> Result<Vec<Term>, PolyError>
    requires term { IsTermOf ring t.now }
    requires terms { All (IsTermOf ring) g.now }
    ensures terms { IfOk result (λ h. h.items ≡ row_terms ring t.now g.now) }
    ensures fits { OnOk result (row_fits t.now g.now ≡ true) }
    ensures exponent { IsErrOf result PolyError.Exponent → row_fits t.now g.now ≡ false }
{
    let mut out = Vec::with_capacity(alloc, g.len())?;
    for u in g {
        let Some(mono) = t.mono.times(u.mono) else {
            return Err(PolyError::Exponent);
        };
        let coeff = ring.prime.mul(t.coeff, u.coeff);
        out.push(Term { mono, coeff })?;
    }
    Ok(out)
}

fn product(alloc: Global, ring: Ring, f: &[Term], g: &[Term]) -> Result<Vec<Term>, PolyError>
    requires f_canonical { IsCanonical ring f.now }
    requires g_canonical { IsCanonical ring g.now }
    ensures canonical { IfOk result (λ h. IsCanonical ring h.items) }
    ensures product { IfOk result (λ h. meaning ring h.items
        ≡ polynomial_product ring.prime ring.vars (meaning ring f.now) (meaning ring g.now)) }
    ensures fits { OnOk result (products_fit f.now g.now ≡ true) }
    ensures exponent { IsErrOf result PolyError.Exponent → products_fit f.now g.now ≡ false }
{
    let Some((t, later)) = f.split_first() else {
        return Ok(Vec::new(alloc));
    };
    if later.is_empty() {
        let terms = row(alloc, ring, t, g)?;
        return Ok(terms);
    }
    let (left, right) = f.split_at(f.len() / 2);
    let first = product(alloc, ring, left, g)?;
    let second = product(alloc, ring, right, g)?;
    let sum = merge(alloc, ring, &first, &second)?;
    Ok(sum)
}

/// The product, by the rows of the factor with fewer terms.
pub(crate) fn times(
    alloc: Global,
    ring: Ring,
    f: &[Term],
    g: &[Term],
) -> Result<Vec<Term>, PolyError>
    requires f_canonical { IsCanonical ring f.now }
    requires g_canonical { IsCanonical ring g.now }
    ensures canonical { IfOk result (λ h. IsCanonical ring h.items) }
    ensures product { IfOk result (λ h. meaning ring h.items
        ≡ polynomial_product ring.prime ring.vars (meaning ring f.now) (meaning ring g.now)) }
    ensures fits { OnOk result (ProductFits ring.prime ring.vars (meaning ring f.now) (meaning ring g.now)) }
    ensures exponent { IsErrOf result PolyError.Exponent
        → ProductPasses ring.prime ring.vars (meaning ring f.now) (meaning ring g.now) }
{
    if f.len() <= g.len() {
        let terms = product(alloc, ring, f, g)?;
        return Ok(terms);
    }
    let terms = product(alloc, ring, g, f)?;
    Ok(terms)
}

/// The power, by one product after another.
pub(crate) fn power_of(
    alloc: Global,
    ring: Ring,
    f: &[Term],
    k: u32,
) -> Result<Vec<Term>, PolyError>
    requires canonical { IsCanonical ring f.now }
    requires some { 1 ≤ ring.vars }
    requires few { ring.vars ≤ 8 }
    ensures canonical { IfOk result (λ h. IsCanonical ring h.items) }
    ensures power { IfOk result (λ h. meaning ring h.items
        ≡ polynomial_power ring.prime ring.vars k (meaning ring f.now)) }
    ensures fits { OnOk result (PowerFits ring.prime ring.vars k (meaning ring f.now)) }
    ensures exponent { IsErrOf result PolyError.Exponent
        → PowerPasses ring.prime ring.vars k (meaning ring f.now) }
{
    let mut power = one(alloc, ring)?;
    for _ in 0..k {
        power = times(alloc, ring, &power, f)?;
    }
    Ok(power)
}

fn one(alloc: Global, ring: Ring) -> Result<Vec<Term>, PolyError>
    requires some { 1 ≤ ring.vars }
    requires few { ring.vars ≤ 8 }
    ensures canonical { IfOk result (λ h. IsCanonical ring h.items) }
    ensures one { IfOk result (λ h. meaning ring h.items ≡ polynomial_one ring.prime ring.vars) }
    ensures memory { IsErrOf result PolyError.Exponent → ⊥ }
{
    let mut terms = Vec::new(alloc);
    terms.push(Term {
        mono: Mono::one(ring.vars),
        coeff: ring.prime.element(1),
    })?;
    Ok(terms)
}
