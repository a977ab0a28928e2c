// Polynomials.
ghost use Rattle.std.specs.Prelude.{All, IfOk, IsErrOf, OnOk, [], ◌<◌, ◌≡◌, ◌≤◌};
ghost use Rattle.fm_gfp.specs.Primes.{prime_value};
ghost use Rattle.fm_algebra.specs.Polynomials.{
  frobenius_twist,
  polynomial_multiple,
  polynomial_power,
  polynomial_product,
  polynomial_sum,
};
ghost use Rattle.fm_poly.specs.Bounds.{
  PowerFits,
  PowerPasses,
  ProductFits,
  ProductPasses,
  TwistFits,
  TwistPasses,
};
ghost use Rattle.fm_poly.specs.Polys.{IsCanonical, IsTermOf, meaning};

use crate::collecting::collect;
use crate::merging::merge;
use crate::multiplying::{power_of, times};
use crate::scaling::multiple_of;
use crate::twisting::twist_of;
use crate::{PolyError, Ring, Term};
use fm_gfp::Gf;
use std::alloc::{AllocError, Global};
use std::marker::Model;

/// A polynomial: its ring and its terms, strictly falling in the ring's order, with nonzero coefficients.
#[derive(Drop)]
pub struct Poly {
    ring: Ring,
    terms: Vec<Term>,
}

impl Model for Poly {
    ghost use Rattle.fm_poly.specs.Polys.{PolyValue, IsCanonical};

    ghost Value = { PolyValue };

    ghost view = { λ f. record { ring = f.ring; terms = f.terms.items } };

    ghost invariant = { λ f. IsCanonical f.ring f.terms.items };
}

impl Poly {
    /// The polynomial 0. It takes no memory.
    pub fn zero(alloc: Global, ring: Ring) -> Poly
        ensures ring { result.ring ≡ ring }
        ensures none { result.terms ≡ [] }
    {
        Poly {
            ring,
            terms: Vec::new(alloc),
        }
    }

    /// The sum of terms in any order, where like terms and zeros may occur.
    pub fn from_terms(alloc: Global, ring: Ring, terms: &[Term]) -> Result<Poly, AllocError>
        requires { All (IsTermOf ring) terms.now }
        ensures ring { IfOk result (λ f. f.ring ≡ ring) }
        ensures sum { IfOk result (λ f. meaning ring f.terms ≡ meaning ring terms.now) }
    {
        let terms = collect(alloc, ring, terms)?;
        Ok(Poly { ring, terms })
    }

    /// The polynomial with these falling terms, which it takes over.
    pub fn from_canonical(ring: Ring, terms: Vec<Term>) -> Poly
        requires { IsCanonical ring terms.items }
        ensures { result ≡ record { ring = ring; terms = terms.items } }
    {
        Poly { ring, terms }
    }

    pub fn ring(&self) -> Ring
        ensures { result ≡ self.now.ring }
    {
        self.ring
    }

    /// The terms, falling.
    pub fn terms(&self) -> &[Term]
        ensures same { result.now ≡ self.now.terms }
        ensures canonical { IsCanonical self.now.ring self.now.terms }
    {
        &self.terms
    }

    pub fn copy(&self, alloc: Global) -> Result<Poly, AllocError>
        ensures { IfOk result (λ f. f ≡ self.now) }
    {
        let terms = Vec::from_slice(alloc, &self.terms)?;
        Ok(Poly {
            ring: self.ring,
            terms,
        })
    }

    pub fn add(&self, alloc: Global, b: &Poly) -> Result<Poly, AllocError>
        requires { self.now.ring ≡ b.now.ring }
        ensures ring { IfOk result (λ f. f.ring ≡ self.now.ring) }
        ensures sum { let r = self.now.ring in IfOk result (λ f.
            meaning r f.terms ≡ polynomial_sum r.prime r.vars (meaning r self.now.terms) (meaning r b.now.terms)) }
    {
        let terms = merge(alloc, self.ring, &self.terms, &b.terms)?;
        Ok(Poly {
            ring: self.ring,
            terms,
        })
    }

    /// The multiple by a number c.
    pub fn scale(&self, alloc: Global, c: Gf) -> Result<Poly, AllocError>
        requires { c < prime_value self.now.ring.prime }
        ensures ring { IfOk result (λ f. f.ring ≡ self.now.ring) }
        ensures multiple { let r = self.now.ring in IfOk result (λ f.
            meaning r f.terms ≡ polynomial_multiple r.prime r.vars c (meaning r self.now.terms)) }
    {
        let terms = multiple_of(alloc, self.ring, &self.terms, c)?;
        Ok(Poly {
            ring: self.ring,
            terms,
        })
    }

    pub fn mul(&self, alloc: Global, b: &Poly) -> Result<Poly, PolyError>
        requires { self.now.ring ≡ b.now.ring }
        ensures ring { IfOk result (λ f. f.ring ≡ self.now.ring) }
        ensures product { let r = self.now.ring in IfOk result (λ f.
            meaning r f.terms ≡ polynomial_product r.prime r.vars (meaning r self.now.terms) (meaning r b.now.terms)) }
        ensures fits { let r = self.now.ring in
            OnOk result (ProductFits r.prime r.vars (meaning r self.now.terms) (meaning r b.now.terms)) }
        ensures exponent { let r = self.now.ring in IsErrOf result PolyError.Exponent
            → ProductPasses r.prime r.vars (meaning r self.now.terms) (meaning r b.now.terms) }
    {
        let terms = times(alloc, self.ring, &self.terms, &b.terms)?;
        Ok(Poly {
            ring: self.ring,
            terms,
        })
    }

    /// The Frobenius twist: each exponent is multiplied by p^e.
    pub fn twist(&self, alloc: Global, e: u8) -> Result<Poly, PolyError>
        ensures ring { IfOk result (λ f. f.ring ≡ self.now.ring) }
        ensures twist { let r = self.now.ring in IfOk result (λ f.
            meaning r f.terms ≡ frobenius_twist r.prime r.vars e (meaning r self.now.terms)) }
        ensures fits { let r = self.now.ring in OnOk result (TwistFits r.prime r.vars e (meaning r self.now.terms)) }
        ensures exponent { let r = self.now.ring in IsErrOf result PolyError.Exponent
            → TwistPasses r.prime r.vars e (meaning r self.now.terms) }
    {
        let terms = twist_of(alloc, self.ring, &self.terms, e)?;
        Ok(Poly {
            ring: self.ring,
            terms,
        })
    }

    /// The power by k: the products f^0 * f, .., f^(k-1) * f, one after another.
    pub fn power(&self, alloc: Global, k: u32) -> Result<Poly, PolyError>
        requires some { 1 ≤ self.now.ring.vars }
        requires few { self.now.ring.vars ≤ 8 }
        ensures ring { IfOk result (λ f. f.ring ≡ self.now.ring) }
        ensures power { let r = self.now.ring in IfOk result (λ f.
            meaning r f.terms ≡ polynomial_power r.prime r.vars k (meaning r self.now.terms)) }
        ensures fits { let r = self.now.ring in OnOk result (PowerFits r.prime r.vars k (meaning r self.now.terms)) }
        ensures exponent { let r = self.now.ring in IsErrOf result PolyError.Exponent
            → PowerPasses r.prime r.vars k (meaning r self.now.terms) }
    {
        let terms = power_of(alloc, self.ring, &self.terms, k)?;
        Ok(Poly {
            ring: self.ring,
            terms,
        })
    }
}
