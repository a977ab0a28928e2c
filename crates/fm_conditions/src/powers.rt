// Powers of polynomials, in factors.
ghost use Rattle.std.specs.Prelude.{IfOk, IsErrOf, List, Some, [], false, length, slice_get, suc, true, ◌<◌, ◌∷◌, ◌≡◌, ◌≤◌, ℕ};
ghost use Rattle.fm_conditions.specs.Constants as constants;
ghost use Rattle.fm_gfp.specs.Primes.{prime_value};
ghost use Rattle.fm_judge.specs.Claims.{factored_part, power_part};
ghost use Rattle.fm_parts.specs.Values.{is_within_bound};
ghost use Rattle.fm_mat.specs.Matrices.{MatrixValue};
ghost use Rattle.fm_poly.specs.Polys.{IsCanonical, PolyValue};
ghost use Rattle.fm_poly.specs.declared.ring.Ring.{Ring as RingValue};
ghost use Rattle.fm_pres.specs.Kept.{IsValue};
ghost use Rattle.fm_report.specs.Parts.{given};

use crate::forming::shared;
use fm_gfp::Prime;
use fm_mat::{Column, Matrix};
use fm_poly::{Poly, PolyError};
use fm_support::scalars::scalar;
use std::alloc::{AllocError, Global};
use std::rc::Rc;

/// f^k times the unit matrix with so many rows.
pub(crate) fn power(alloc: Global, f: &Poly, k: u64, rows: u32) -> Result<Rc<Matrix>, PolyError>
    requires some { 1 ≤ f.now.ring.vars }
    requires few { f.now.ring.vars ≤ 8 }
    requires within { is_within_bound f.now.ring (factored_part f.now.ring f.now k) ≡ true }
    ensures value { IfOk result (λ s. IsValue f.now.ring (power_part f.now.ring f.now k rows) s.value) }
    ensures exponent { IsErrOf result PolyError.Exponent → ⊥ }
{
    let product = factored(alloc, f, k)?;
    let power = scalar(alloc, only_entry(&product), rows)?;
    shared(alloc, power)
}

/// f^k as a matrix with one entry, by k products; if f is a constant, by fewer than p.
pub(crate) fn factored(alloc: Global, f: &Poly, k: u64) -> Result<Matrix, PolyError>
    requires some { 1 ≤ f.now.ring.vars }
    requires few { f.now.ring.vars ≤ 8 }
    ensures value { IfOk result (λ m. IsValue f.now.ring (factored_part f.now.ring f.now k) m) }
    ensures rows { IfOk result (λ m. m.rows ≡ 1) }
    ensures columns { IfOk result (λ m. length m.columns ≡ 1) }
    ensures exponent { IsErrOf result PolyError.Exponent → is_within_bound f.now.ring (factored_part f.now.ring f.now k) ≡ false }
{
    let product = multiplied(alloc, f, factor_count(f, k))?;
    Ok(product)
}

// How many factors give f^k. The powers of a constant repeat, so that fewer than p do.
fn factor_count(f: &Poly, k: u64) -> u64
    ensures within { result ≤ k }
    ensures few { constants.is_constant f.now.terms ≡ true → result < prime_value f.now.ring.prime }
    ensures value { (m : MatrixValue) → IsValue f.now.ring (factored_part f.now.ring f.now result) m → IsValue f.now.ring (factored_part f.now.ring f.now k) m }
{
    if !is_constant(f) {
        return k;
    }
    least_exponent(f.ring().prime, k)
}

// Whether f has no term, or one whose monomial is 1.
fn is_constant(f: &Poly) -> bool
    ensures exact { result ≡ constants.is_constant f.now.terms }
    ensures canonical { IsCanonical f.now.ring f.now.terms }
{
    let Some((first, later)) = f.terms().split_first() else {
        return true;
    };
    later.is_empty() && first.mono.degree() == 0
}

// The least exponent with the same power of each constant: from 1 on they repeat after p - 1.
fn least_exponent(prime: Prime, k: u64) -> u64
    ensures exact { result ≡ constants.least_exponent prime k }
    ensures within { result ≤ k }
    ensures few { result < prime_value prime }
{
    if k == 0 {
        return 0;
    }
    1 + (k - 1) % (u64::from(prime.value()) - 1)
}

// f^k as a matrix with one entry, by k products.
fn multiplied(alloc: Global, f: &Poly, k: u64) -> Result<Matrix, PolyError>
    requires some { 1 ≤ f.now.ring.vars }
    requires few { f.now.ring.vars ≤ 8 }
    ensures value { IfOk result (λ m. IsValue f.now.ring (factored_part f.now.ring f.now k) m) }
    ensures rows { IfOk result (λ m. m.rows ≡ 1) }
    ensures columns { IfOk result (λ m. length m.columns ≡ 1) }
    ensures exponent { IsErrOf result PolyError.Exponent → is_within_bound f.now.ring (factored_part f.now.ring f.now k) ≡ false }
{
    let factor = single(alloc, f)?;
    let mut power = Matrix::unit(alloc, f.ring(), 1)?;
    let mut count = 0;
    while count < k {
        power = next_power(alloc, &power, &factor)?;
        count += 1;
    }
    Ok(power)
}

// The product of a power and one more factor.
fn next_power(alloc: Global, power: &Matrix, factor: &Matrix) -> Result<Matrix, PolyError>
    requires ring { factor.now.ring ≡ power.now.ring }
    requires inner { factor.now.rows ≡ length power.now.columns }
    ensures ring { IfOk result (λ m. m.ring ≡ power.now.ring) }
    ensures rows { IfOk result (λ m. m.rows ≡ power.now.rows) }
    ensures columns { IfOk result (λ m. length m.columns ≡ length factor.now.columns) }
    ensures value { (r : RingValue) (f : PolyValue) (k : ℕ) → IsValue r (factored_part r f k) power.now → IsValue r (given 1 ((f ∷ []) ∷ [])) factor.now
        → IfOk result (λ m. IsValue r (factored_part r f (suc k)) m) }
    ensures exponent { (r : RingValue) (f : PolyValue) (k : ℕ) → IsValue r (factored_part r f k) power.now → IsValue r (given 1 ((f ∷ []) ∷ [])) factor.now
        → IsErrOf result PolyError.Exponent → is_within_bound r (factored_part r f (suc k)) ≡ false }
{
    let product = power.times(alloc, factor)?;
    Ok(product)
}

// The matrix with this one entry.
fn single(alloc: Global, f: &Poly) -> Result<Matrix, AllocError>
    ensures { IfOk result (λ m. m ≡ record { ring = f.now.ring; rows = 1; columns = (f.now ∷ []) ∷ [] }) }
{
    let mut entries = Vec::with_capacity(alloc, 1)?;
    entries.push(f.copy(alloc)?)?;
    let mut columns = Vec::with_capacity(alloc, 1)?;
    columns.push(Column::new(entries))?;
    Ok(Matrix::new(f.ring(), 1, columns))
}

fn only_entry(m: &Matrix) -> &Poly
    requires rows { m.now.rows ≡ 1 }
    requires columns { length m.now.columns ≡ 1 }
    ensures ring { result.now.ring ≡ m.entry.now.ring }
    ensures at { (c : List PolyValue) → slice_get m.entry.now.columns 0 ≡ Some c → slice_get c 0 ≡ Some result.now }
{
    let Some((column, _later)) = m.columns().split_first() else {
        unreachable!();
    };
    let Some((entry, _later)) = column.entries().split_first() else {
        unreachable!();
    };
    entry
}
