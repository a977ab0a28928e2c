// Buckets: long polynomials from which multiples are taken away.
ghost use Rattle.std.specs.Prelude.{IfNone, IfOk, IfSome, IsErrOf, MatchOption, OnErr, OnOk, [], false, length, replicate, true, ◌∷◌, ◌<◌, ◌≡◌};
ghost use Rattle.fm_gfp.specs.Primes.{prime_value};
ghost use Rattle.fm_algebra.specs.Polynomials.{polynomial_product, polynomial_sum, polynomial_term, polynomial_zero};
ghost use Rattle.fm_bucket.specs.Levels.{AreBelow, AreCanonical, levels_sum};
ghost use Rattle.fm_poly.specs.Polys.{IsCanonical, meaning};
ghost use Rattle.fm_poly.specs.Steps.{row_fits};

use crate::level::Level;
use crate::levels::{add_multiple, put, take_lead, total};
use fm_poly::{Poly, PolyError, Ring, Term};
use std::alloc::{AllocError, Global};
use std::marker::Model;

const LEVELS: usize = 8;

/// A polynomial as a sum of lists of terms, and two buffers that take turns.
#[derive(Drop)]
pub struct Bucket {
    ring: Ring,
    levels: Vec<Level>,
    first: Vec<Term>,
    second: Vec<Term>,
}

impl Model for Bucket {
    ghost use Rattle.std.specs.Prelude.{vec_len, ◌<◌};
    ghost use Rattle.fm_bucket.specs.Levels.{AreCanonical};
    ghost use Rattle.fm_bucket.specs.Values.{BucketValue};

    ghost Value = { BucketValue };

    ghost view = { λ b. record { ring = b.ring; lists = b.levels.items } };

    ghost invariant = { λ b. (0 < vec_len b.levels) × AreCanonical b.ring b.levels.items };
}

impl Bucket {
    /// The bucket with the value f.
    pub fn of(alloc: Global, f: &Poly) -> Result<Bucket, AllocError>
        ensures ring { IfOk result (λ b. b.ring ≡ f.now.ring) }
        ensures value { IfOk result (λ b. levels_sum f.now.ring b.lists ≡ meaning f.now.ring f.now.terms) }
    {
        let ring = f.ring();
        let mut first = Vec::from_slice(alloc, f.terms())?;
        let mut second = Vec::new(alloc);
        let mut levels = empty_levels(alloc)?;
        put(ring, &mut levels, 4, &mut first, &mut second)?;
        Ok(Bucket {
            ring,
            levels,
            first,
            second,
        })
    }

    /// Takes the leading term off. There is none exactly where the value is zero.
    pub fn take_lead(&mut self) -> Option<Term>
        ensures ring { self.new.ring ≡ self.old.ring }
        ensures sum { MatchOption result (levels_sum self.old.ring self.old.lists ≡ polynomial_zero self.old.ring.prime self.old.ring.vars)
            (λ t. levels_sum self.old.ring self.old.lists ≡ polynomial_sum self.old.ring.prime self.old.ring.vars (polynomial_term self.old.ring.prime self.old.ring.vars t.coeff t.mono) (levels_sum self.old.ring self.new.lists)) }
        ensures none { IfNone result (levels_sum self.old.ring self.new.lists ≡ polynomial_zero self.old.ring.prime self.old.ring.vars) }
        ensures canonical { AreCanonical self.old.ring self.new.lists }
        ensures less { IfSome result (λ t. AreBelow self.old.ring.order t.mono self.new.lists) }
        ensures term { IfSome result (λ t. (length t.mono ≡ self.old.ring.vars) × (0 < t.coeff) × (t.coeff < prime_value self.old.ring.prime)) }
    {
        take_lead(self.ring, &mut self.levels)
    }

    /// Adds t * g. After a refusal the value is unchanged.
    pub fn add_multiple(&mut self, t: &Term, g: &[Term]) -> Result<(), PolyError>
        requires t { IsCanonical self.old.ring (t.now ∷ []) }
        requires g { IsCanonical self.old.ring g.now }
        ensures ring { self.new.ring ≡ self.old.ring }
        ensures sum { OnOk result (levels_sum self.old.ring self.new.lists
            ≡ polynomial_sum self.old.ring.prime self.old.ring.vars (polynomial_product self.old.ring.prime self.old.ring.vars (polynomial_term self.old.ring.prime self.old.ring.vars t.now.coeff t.now.mono) (meaning self.old.ring g.now)) (levels_sum self.old.ring self.old.lists)) }
        ensures unchanged { OnErr result (self.new ≡ self.old) }
        ensures fits { OnOk result (row_fits t.now g.now ≡ true) }
        ensures exponent { IsErrOf result PolyError.Exponent → row_fits t.now g.now ≡ false }
    {
        add_multiple(
            self.ring,
            &mut self.levels,
            t,
            g,
            &mut self.first,
            &mut self.second,
        )
    }

    /// The value, which stays.
    pub fn value(&self, alloc: Global) -> Result<Poly, AllocError>
        ensures ring { IfOk result (λ f. f.ring ≡ self.now.ring) }
        ensures value { IfOk result (λ f. meaning self.now.ring f.terms ≡ levels_sum self.now.ring self.now.lists) }
        ensures canonical { IfOk result (λ f. IsCanonical self.now.ring f.terms) }
    {
        let mut first = Vec::new(alloc);
        let mut second = Vec::new(alloc);
        total(self.ring, &self.levels, &mut first, &mut second)?;
        Ok(Poly::from_canonical(self.ring, first))
    }

    /// The value.
    pub fn close(self) -> Result<Poly, AllocError>
        ensures ring { IfOk result (λ f. f.ring ≡ self.ring) }
        ensures value { IfOk result (λ f. meaning self.ring f.terms ≡ levels_sum self.ring self.lists) }
    {
        let mut first = self.first;
        let mut second = self.second;
        total(self.ring, &self.levels, &mut first, &mut second)?;
        Ok(Poly::from_canonical(self.ring, first))
    }
}

fn empty_levels(alloc: Global) -> Result<Vec<Level>, AllocError>
    ensures { IfOk result (λ levels. levels.items ≡ replicate 8 []) }
{
    let mut levels = Vec::with_capacity(alloc, LEVELS)?;
    for _k in 0..LEVELS {
        levels.push(Level::new(alloc))?;
    }
    Ok(levels)
}
