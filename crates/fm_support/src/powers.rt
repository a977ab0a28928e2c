// Powers of a polynomial, one product after another.
ghost use Rattle.std.specs.Prelude.{IfOk, ℕ, ◌≡◌, ◌≤◌};
ghost use Rattle.fm_algebra.specs.Polynomials.{polynomial_power};
ghost use Rattle.fm_poly.specs.Polys.{PolyValue, meaning};
ghost use Rattle.fm_poly.specs.declared.ring.Ring.{Ring};
ghost use Rattle.fm_plan.specs.Queries.{power_run};
ghost use Rattle.fm_run.specs.Runs.{Follows};
ghost use Rattle.fm_support.specs.Powers.{next_power};

use fm_poly::{Poly, PolyError};
use fm_run::Stop;
use std::alloc::Global;

/// f^k.
pub(crate) fn power(alloc: Global, f: &Poly, k: u32) -> Result<Poly, Stop>
    requires some { 1 ≤ f.now.ring.vars }
    requires few { f.now.ring.vars ≤ 8 }
    ensures follows { (r : Ring) (units : ℕ) → f.now.ring ≡ r → Follows (λ (h : PolyValue). meaning r h.terms) result units units
        (power_run r k (meaning r f.now.terms) units) }
    ensures value { (r : Ring) → f.now.ring ≡ r → IfOk result (λ h.
        meaning r h.terms ≡ polynomial_power r.prime r.vars k (meaning r f.now.terms)) }
    ensures ring { IfOk result (λ h. h.ring ≡ f.now.ring) }
{
    match f.power(alloc, k) {
        Ok(power) => Ok(power),
        Err(PolyError::Exponent) => Err(Stop::Exponent),
        Err(PolyError::Memory) => Err(Stop::Memory),
    }
}

/// g * f, where g is a power of f.
pub(crate) fn times(alloc: Global, g: &Poly, f: &Poly) -> Result<Poly, Stop>
    requires ring { g.now.ring ≡ f.now.ring }
    ensures follows { (r : Ring) (units k : ℕ) → f.now.ring ≡ r → meaning r g.now.terms ≡ polynomial_power r.prime r.vars k (meaning r f.now.terms)
        → Follows (λ (h : PolyValue). meaning r h.terms) result units units (next_power r k (meaning r f.now.terms) (meaning r g.now.terms) units) }
    ensures ring { IfOk result (λ h. h.ring ≡ f.now.ring) }
{
    match g.mul(alloc, f) {
        Ok(product) => Ok(product),
        Err(PolyError::Exponent) => Err(Stop::Exponent),
        Err(PolyError::Memory) => Err(Stop::Memory),
    }
}
