// Sums of lists of terms: adding a list, and taking off the greatest terms.
ghost use Rattle.std.specs.Prelude.{IfNone, IfSome, IsErrOf, MatchOption, OnErr, OnOk, [], false, length, true, ◌∷◌, ◌<◌, ◌≡◌, ◌≤◌, ◌⊎◌};
ghost use Rattle.fm_gfp.specs.Primes.{prime_value};
ghost use Rattle.fm_algebra.specs.Polynomials.{polynomial_product, polynomial_sum, polynomial_term, polynomial_zero};
ghost use Rattle.fm_poly.specs.Steps.{row_fits};
ghost use Rattle.fm_poly.specs.Polys.{IsCanonical, meaning};
ghost use Rattle.fm_bucket.specs.Levels.{AreAtMost, AreBelow, AreCanonical, AreWithin, Grows, IsAtMost, IsBelow, IsWithin, levels_count, levels_sum};

use crate::level::Level;
use crate::merging::{merge, multiple};
use fm_gfp::Gf;
use fm_mono::Mono;
use fm_poly::{PolyError, Ring, Term};
use std::alloc::AllocError;
use std::cmp::Ordering;
use std::mem;

/// Adds the list in the first buffer. The first list holds at most so many terms, each later one four times as many, and
/// the last one any number. The lists change only when all memory has been taken.
pub(crate) fn put(
    ring: Ring,
    levels: &mut [Level],
    most: usize,
    first: &mut Vec<Term>,
    second: &mut Vec<Term>,
) -> Result<(), AllocError>
    requires some { 0 < length levels.old }
    requires levels { AreCanonical ring levels.old }
    requires first { IsCanonical ring first.old.items }
    ensures canonical { AreCanonical ring levels.new }
    ensures sum { OnOk result (levels_sum ring levels.new
        ≡ polynomial_sum ring.prime ring.vars (meaning ring first.old.items) (levels_sum ring levels.old)) }
    ensures unchanged { OnErr result (levels.new ≡ levels.old) }
{
    let Some((level, later)) = levels.split_first_mut() else {
        unreachable!();
    };
    let next = most.saturating_mul(4);
    if first.len() > most && !later.is_empty() {
        put(ring, later, next, first, second)?;
        return Ok(());
    }
    if level.terms().is_empty() {
        level.swap(first);
        return Ok(());
    }
    merge(ring, level.terms(), first, second)?;
    if second.len() <= most || later.is_empty() {
        level.swap(second);
        return Ok(());
    }
    mem::swap(first, second);
    put(ring, later, next, first, second)?;
    level.clear();
    Ok(())
}

/// Takes the terms at m off, which no term is greater than, and gives their sum with c.
pub(crate) fn take(ring: Ring, levels: &mut [Level], m: Mono, c: Gf) -> Gf
    requires levels { AreCanonical ring levels.old }
    requires most { AreAtMost ring.order m levels.old }
    requires vars { length m ≡ ring.vars }
    requires below { c < prime_value ring.prime }
    ensures canonical { AreCanonical ring levels.new }
    ensures less { AreBelow ring.order m levels.new }
    ensures fewer { AreBelow ring.order m levels.old ⊎ (levels_count levels.new < levels_count levels.old) }
    ensures no_more { levels_count levels.new ≤ levels_count levels.old }
    ensures below { result < prime_value ring.prime }
    ensures sum { polynomial_sum ring.prime ring.vars (polynomial_term ring.prime ring.vars c m) (levels_sum ring levels.old)
        ≡ polynomial_sum ring.prime ring.vars (polynomial_term ring.prime ring.vars result m) (levels_sum ring levels.new) }
{
    let Some((level, later)) = levels.split_first_mut() else {
        return c;
    };
    let sum = take_first(ring, level, m, c);
    take(ring, later, m, sum)
}

#[inline]
fn take_first(ring: Ring, level: &mut Level, m: Mono, c: Gf) -> Gf
    requires level { IsCanonical ring level.old }
    requires most { IsAtMost ring.order m level.old }
    requires vars { length m ≡ ring.vars }
    requires below { c < prime_value ring.prime }
    ensures canonical { IsCanonical ring level.new }
    ensures less { IsBelow ring.order m level.new }
    ensures fewer { IsBelow ring.order m level.old ⊎ (length level.new < length level.old) }
    ensures no_more { length level.new ≤ length level.old }
    ensures below { result < prime_value ring.prime }
    ensures sum { polynomial_sum ring.prime ring.vars (polynomial_term ring.prime ring.vars c m) (meaning ring level.old)
        ≡ polynomial_sum ring.prime ring.vars (polynomial_term ring.prime ring.vars result m) (meaning ring level.new) }
{
    let Some((t, _)) = level.terms().split_first() else {
        return c;
    };
    let sum = match t.mono.compare(ring.order, &m) {
        Ordering::Equal => ring.prime.add(c, t.coeff),
        Ordering::Less | Ordering::Greater => return c,
    };
    level.advance();
    sum
}

/// The greatest of the monomials of the first terms. There is none exactly where all lists are empty.
pub(crate) fn greatest(ring: Ring, levels: &[Level]) -> Option<Mono>
    requires { AreCanonical ring levels.now }
    ensures within { AreWithin ring.order result levels.now }
    ensures reached { IfSome result (λ m. AreBelow ring.order m levels.now → ⊥) }
    ensures vars { IfSome result (λ m. length m ≡ ring.vars) }
{
    let mut best = None;
    let mut levels = levels;
    'levels: loop {
        let Some((level, later)) = levels.split_first() else {
            return best;
        };
        best = greater(ring, best, level);
        levels = later;
    }
}

#[inline]
fn greater(ring: Ring, best: Option<Mono>, level: &Level) -> Option<Mono>
    requires level { IsCanonical ring level.now }
    requires vars { IfSome best (λ m. length m ≡ ring.vars) }
    ensures grows { Grows ring.order best result }
    ensures within { IsWithin ring.order result level.now }
    ensures reached { (result ≡ best) ⊎ IfSome result (λ m. IsBelow ring.order m level.now → ⊥) }
    ensures vars { IfSome result (λ m. length m ≡ ring.vars) }
{
    let Some((t, _)) = level.terms().split_first() else {
        return best;
    };
    let Some(m) = best else {
        return Some(t.mono);
    };
    match t.mono.compare(ring.order, &m) {
        Ordering::Greater => Some(t.mono),
        Ordering::Less | Ordering::Equal => best,
    }
}

/// Takes the leading term of the sum off. There is none exactly where the sum is zero.
pub(crate) fn take_lead(ring: Ring, levels: &mut [Level]) -> Option<Term>
    requires { AreCanonical ring levels.old }
    ensures canonical { AreCanonical ring levels.new }
    ensures sum { MatchOption result (levels_sum ring levels.old ≡ polynomial_zero ring.prime ring.vars)
        (λ t. levels_sum ring levels.old ≡ polynomial_sum ring.prime ring.vars (polynomial_term ring.prime ring.vars t.coeff t.mono) (levels_sum ring levels.new)) }
    ensures none { IfNone result (levels_sum ring levels.new ≡ polynomial_zero ring.prime ring.vars) }
    ensures less { IfSome result (λ t. AreBelow ring.order t.mono levels.new) }
    ensures term { IfSome result (λ t. (length t.mono ≡ ring.vars) × (0 < t.coeff) × (t.coeff < prime_value ring.prime)) }
{
    let zero = ring.prime.element(0);
    'terms: loop {
        let Some(mono) = greatest(ring, levels) else {
            return None;
        };
        let coeff = take(ring, levels, mono, zero);
        if coeff.number() != 0 {
            return Some(Term { mono, coeff });
        }
    }
}

/// Writes the sum of the lists into the first buffer.
pub(crate) fn total(
    ring: Ring,
    levels: &[Level],
    first: &mut Vec<Term>,
    second: &mut Vec<Term>,
) -> Result<(), AllocError>
    requires { AreCanonical ring levels.now }
    ensures canonical { OnOk result (IsCanonical ring first.new.items) }
    ensures sum { OnOk result (meaning ring first.new.items ≡ levels_sum ring levels.now) }
{
    first.clear();
    let mut levels = levels;
    'levels: loop {
        let Some((level, later)) = levels.split_first() else {
            return Ok(());
        };
        merge(ring, level.terms(), first, second)?;
        mem::swap(first, second);
        levels = later;
    }
}

/// Adds t * g. The lists change only when all memory has been taken, and no exponent passes the bound.
pub(crate) fn add_multiple(
    ring: Ring,
    levels: &mut [Level],
    t: &Term,
    g: &[Term],
    first: &mut Vec<Term>,
    second: &mut Vec<Term>,
) -> Result<(), PolyError>
    requires some { 0 < length levels.old }
    requires levels { AreCanonical ring levels.old }
    requires t { IsCanonical ring (t.now ∷ []) }
    requires g { IsCanonical ring g.now }
    ensures canonical { AreCanonical ring levels.new }
    ensures sum { OnOk result (levels_sum ring levels.new
        ≡ polynomial_sum ring.prime ring.vars (polynomial_product ring.prime ring.vars (polynomial_term ring.prime ring.vars t.now.coeff t.now.mono) (meaning ring g.now)) (levels_sum ring levels.old)) }
    ensures unchanged { OnErr result (levels.new ≡ levels.old) }
    ensures fits { OnOk result (row_fits t.now g.now ≡ true) }
    ensures exponent { IsErrOf result PolyError.Exponent → row_fits t.now g.now ≡ false }
{
    multiple(ring, t, g, first)?;
    put(ring, levels, 4, first, second)?;
    Ok(())
}
