// Vectors.
ghost use Rattle.std.specs.Prelude.{IfOk, IsErrOf, OnOk, [], false, length, true, ◌<◌, ◌^◌, ◌≡◌, ◌≢◌};
ghost use Rattle.fm_gfp.specs.Primes.{prime_value};
ghost use Rattle.fm_vec.specs.Components as parts;
ghost use Rattle.fm_vec.specs.Components.{AreOver, column_from};
ghost use Rattle.fm_term.specs.Multiples.{twisted};
ghost use Rattle.fm_vec.specs.Multiples.{minus_multiple, monic_of, multiple_fits, plus_multiple, s_vector_fits, s_vector_of, twist_fits};
ghost use Rattle.fm_term.specs.Falling.{head_of};
ghost use Rattle.fm_vec.specs.Vectors.{HaveSVector, IsVector};

use crate::columns::{column_of, column_terms};
use crate::multiples::{fits, s_terms, sum_with_multiple};
use crate::terms::{scale, twist_terms};
use fm_gfp::Gf;
use fm_mono::Mono;
use fm_poly::{Poly, PolyError, Ring};
use fm_term::VTerm;
use std::alloc::{AllocError, Global};
use std::marker::Model;

/// A vector of polynomials: its ring, its length, and its terms, which fall strictly: a smaller component is greater.
#[derive(Drop)]
pub struct Vector {
    ring: Ring,
    rows: u32,
    terms: Vec<VTerm>,
}

impl Model for Vector {
    ghost use Rattle.fm_vec.specs.Vectors.{IsVector, VectorValue};

    ghost Value = { VectorValue };

    ghost view = { λ v. record { ring = v.ring; rows = v.rows; terms = v.terms.items } };

    ghost invariant = { λ v. IsVector v.ring v.rows v.terms.items };
}

impl Vector {
    /// The vector with these terms, which it takes over.
    pub fn from_falling(ring: Ring, rows: u32, terms: Vec<VTerm>) -> Vector
        requires { IsVector ring rows terms.items }
        ensures { result ≡ record { ring = ring; rows = rows; terms = terms.items } }
    {
        Vector { ring, rows, terms }
    }

    pub fn ring(&self) -> Ring
        ensures { result ≡ self.now.ring }
    {
        self.ring
    }

    /// The number of components.
    pub fn length(&self) -> u32
        ensures { result ≡ self.now.rows }
    {
        self.rows
    }

    /// The terms, falling.
    pub fn terms(&self) -> &[VTerm]
        ensures same { result.now ≡ self.now.terms }
        ensures proper { IsVector self.now.ring self.now.rows self.now.terms }
    {
        &self.terms
    }

    /// The terms, whose buffer may serve again.
    pub fn into_terms(self) -> Vec<VTerm>
        ensures { result.items ≡ self.terms }
    {
        self.terms
    }

    /// The greatest term; there is none exactly for the zero vector.
    pub fn head(&self) -> Option<VTerm>
        ensures head { result ≡ head_of self.now.terms }
        ensures proper { IsVector self.now.ring self.now.rows self.now.terms }
    {
        self.terms.first().copied()
    }

    pub fn copy(&self, alloc: Global) -> Result<Vector, AllocError>
        ensures { IfOk result (λ v. v ≡ self.now) }
    {
        let terms = Vec::from_slice(alloc, &self.terms)?;
        Ok(Vector {
            ring: self.ring,
            rows: self.rows,
            terms,
        })
    }

    /// Self plus d * m * b, written into a buffer whose content is dropped.
    pub fn plus_multiple(
        &self,
        buffer: Vec<VTerm>,
        d: Gf,
        m: Mono,
        b: &Vector,
    ) -> Result<Vector, PolyError>
        requires ring { b.now.ring ≡ self.now.ring }
        requires rows { b.now.rows ≡ self.now.rows }
        requires some { 0 < d }
        requires below { d < prime_value self.now.ring.prime }
        requires vars { length m ≡ self.now.ring.vars }
        ensures value { IfOk result (λ v. v ≡ record { ring = self.now.ring; rows = self.now.rows; terms = plus_multiple self.now.ring d m b.now.terms self.now.terms }) }
        ensures fits { OnOk result (multiple_fits m b.now.terms ≡ true) }
        ensures exponent { IsErrOf result PolyError.Exponent → multiple_fits m b.now.terms ≡ false }
    {
        let terms = sum_with_multiple(self.ring, buffer, d, m, b.terms(), self.terms())?;
        Ok(Vector {
            ring: self.ring,
            rows: self.rows,
            terms,
        })
    }

    /// Self minus c * m * b.
    pub fn sub_multiple(
        &self,
        alloc: Global,
        c: Gf,
        m: Mono,
        b: &Vector,
    ) -> Result<Vector, PolyError>
        requires ring { b.now.ring ≡ self.now.ring }
        requires rows { b.now.rows ≡ self.now.rows }
        requires below { c < prime_value self.now.ring.prime }
        requires vars { length m ≡ self.now.ring.vars }
        ensures value { IfOk result (λ v. v ≡ record { ring = self.now.ring; rows = self.now.rows; terms = minus_multiple self.now.ring c m b.now.terms self.now.terms }) }
        ensures fits { OnOk result (multiple_fits m b.now.terms ≡ true) }
        ensures exponent { IsErrOf result PolyError.Exponent → multiple_fits m b.now.terms ≡ false }
    {
        if c.number() == 0 {
            return self.copy_if_fits(alloc, m, b);
        }
        let buffer = Vec::with_capacity(alloc, self.terms.len())?;
        self.plus_multiple(buffer, self.ring.prime.neg(c), m, b)
    }

    fn copy_if_fits(&self, alloc: Global, m: Mono, b: &Vector) -> Result<Vector, PolyError>
        requires vars { length m ≡ b.now.ring.vars }
        ensures value { IfOk result (λ v. v ≡ self.now) }
        ensures fits { OnOk result (multiple_fits m b.now.terms ≡ true) }
        ensures exponent { IsErrOf result PolyError.Exponent → multiple_fits m b.now.terms ≡ false }
    {
        if !fits(b.ring, m, b.terms()) {
            return Err(PolyError::Exponent);
        }
        Ok(self.copy(alloc)?)
    }

    /// Self divided by its head's coefficient.
    pub fn monic(&self, alloc: Global) -> Result<Vector, AllocError>
        requires { self.now.terms ≢ [] }
        ensures { IfOk result (λ v. v ≡ record { ring = self.now.ring; rows = self.now.rows; terms = monic_of self.now.ring self.now.terms }) }
    {
        let Some(head) = self.head() else {
            unreachable!();
        };
        let inverse = self.ring.prime.inverse(head.coeff);
        let terms = scale(alloc, self.ring, inverse, &self.terms)?;
        Ok(Vector {
            ring: self.ring,
            rows: self.rows,
            terms,
        })
    }

    /// With L the least common multiple of the heads: (L / head of self) * self - (L / head of b) * b.
    pub fn s_vector(&self, alloc: Global, b: &Vector) -> Result<Vector, PolyError>
        requires ring { b.now.ring ≡ self.now.ring }
        requires rows { b.now.rows ≡ self.now.rows }
        requires heads { HaveSVector self.now.terms b.now.terms }
        ensures value { IfOk result (λ v. v ≡ record { ring = self.now.ring; rows = self.now.rows; terms = s_vector_of self.now.ring self.now.terms b.now.terms }) }
        ensures fits { OnOk result (s_vector_fits self.now.terms b.now.terms ≡ true) }
        ensures exponent { IsErrOf result PolyError.Exponent → s_vector_fits self.now.terms b.now.terms ≡ false }
    {
        let terms = s_terms(alloc, self.ring, self.terms(), b.terms())?;
        Ok(Vector {
            ring: self.ring,
            rows: self.rows,
            terms,
        })
    }

    /// Every exponent multiplied by p^e.
    pub fn twist(&self, alloc: Global, e: u8) -> Result<Vector, PolyError>
        ensures value { IfOk result (λ v. v ≡ record { ring = self.now.ring; rows = self.now.rows; terms = twisted (prime_value self.now.ring.prime ^ e) self.now.terms }) }
        ensures fits { OnOk result (twist_fits (prime_value self.now.ring.prime ^ e) self.now.terms ≡ true) }
        ensures exponent { IsErrOf result PolyError.Exponent → twist_fits (prime_value self.now.ring.prime ^ e) self.now.terms ≡ false }
    {
        let terms = twist_terms(alloc, self.ring, e, &self.terms)?;
        Ok(Vector {
            ring: self.ring,
            rows: self.rows,
            terms,
        })
    }

    /// The vector whose components are these polynomials.
    pub fn from_column(alloc: Global, ring: Ring, column: &[Poly]) -> Result<Vector, AllocError>
        requires few { length column.now < 2 ^ 32 }
        requires over { AreOver ring column.now }
        ensures { IfOk result (λ v. v ≡ record { ring = ring; rows = length column.now; terms = parts.column_terms 1 column.now }) }
    {
        let terms = column_terms(alloc, ring, column)?;
        Ok(Vector {
            ring,
            rows: column.len() as u32,
            terms,
        })
    }

    /// The components.
    pub fn to_column(&self, alloc: Global) -> Result<Vec<Poly>, AllocError>
        ensures { IfOk result (λ column. column.items ≡ column_from self.now.ring self.now.rows 1 self.now.terms) }
    {
        column_of(alloc, self.ring, self.rows, &self.terms)
    }
}
