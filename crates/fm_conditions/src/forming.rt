// Matrices that operands make.
ghost use Rattle.std.specs.Prelude.{IfOk, IsErrOf, false, length, true, ◌*◌, ◌+◌, ◌<◌, ◌^◌, ◌≡◌, ◌≤◌};
ghost use Rattle.fm_judge.specs.Claims.{blocks_part, unit_column_part, unit_part};
ghost use Rattle.fm_parts.specs.Shapes.{fits};
ghost use Rattle.fm_parts.specs.Values.{is_within_bound};
ghost use Rattle.fm_poly.specs.declared.ring.Ring.{Ring as RingValue};
ghost use Rattle.fm_pres.specs.Kept.{IsValue};
ghost use Rattle.fm_report.specs.Parts.{Part, given, beside as beside_part, flip as flip_part, stack as stack_part, times as times_part, twist as twist_part};

use fm_mat::Matrix;
use fm_poly::{PolyError, Ring};
use std::alloc::Global;
use std::rc::Rc;

pub(crate) fn shared(alloc: Global, m: Matrix) -> Result<Rc<Matrix>, PolyError>
    ensures value { IfOk result (λ s. s.value ≡ m) }
    ensures exponent { IsErrOf result PolyError.Exponent → ⊥ }
{
    let shared = Rc::new(alloc, m)?;
    Ok(shared)
}

pub(crate) fn copied(alloc: Global, m: &Matrix) -> Result<Rc<Matrix>, PolyError>
    ensures value { (r : RingValue) → m.now.ring ≡ r → IfOk result (λ s. IsValue r (given m.now.rows m.now.columns) s.value) }
    ensures exponent { IsErrOf result PolyError.Exponent → ⊥ }
{
    let copy = m.copy(alloc)?;
    shared(alloc, copy)
}

pub(crate) fn unit(alloc: Global, ring: Ring, n: u32) -> Result<Rc<Matrix>, PolyError>
    requires some { 1 ≤ ring.vars }
    requires few { ring.vars ≤ 8 }
    ensures value { IfOk result (λ s. IsValue ring (unit_part ring n) s.value) }
    ensures exponent { IsErrOf result PolyError.Exponent → ⊥ }
{
    let unit = Matrix::unit(alloc, ring, n)?;
    shared(alloc, unit)
}

pub(crate) fn unit_column(alloc: Global, ring: Ring, n: u32) -> Result<Rc<Matrix>, PolyError>
    requires some { 1 ≤ ring.vars }
    requires few { ring.vars ≤ 8 }
    requires fits { fits (unit_column_part ring n) ≡ true }
    ensures value { IfOk result (λ s. IsValue ring (unit_column_part ring n) s.value) }
    ensures exponent { IsErrOf result PolyError.Exponent → ⊥ }
{
    let column = fm_support::blocks::unit_column(alloc, ring, n)?;
    shared(alloc, column)
}

/// As many copies of k along the diagonal as it has rows.
pub(crate) fn blocks(alloc: Global, k: &Matrix) -> Result<Rc<Matrix>, PolyError>
    requires rows { k.now.rows * k.now.rows < 2 ^ 32 }
    requires columns { k.now.rows * length k.now.columns < 2 ^ 32 }
    ensures value { (r : RingValue) (K : Part) → IsValue r K k.now → IfOk result (λ s. IsValue r (blocks_part r K) s.value) }
    ensures exponent { IsErrOf result PolyError.Exponent → ⊥ }
{
    let blocks = fm_support::blocks::diagonal_blocks(alloc, k)?;
    shared(alloc, blocks)
}

pub(crate) fn twisted(alloc: Global, a: &Matrix, e: u8) -> Result<Rc<Matrix>, PolyError>
    ensures value { (r : RingValue) (A : Part) → IsValue r A a.now → IfOk result (λ s. IsValue r (twist_part A e) s.value) }
    ensures exponent { (r : RingValue) (A : Part) → IsValue r A a.now → IsErrOf result PolyError.Exponent → is_within_bound r (twist_part A e) ≡ false }
{
    let twist = a.twist(alloc, e)?;
    shared(alloc, twist)
}

pub(crate) fn flipped(alloc: Global, a: &Matrix) -> Result<Rc<Matrix>, PolyError>
    ensures value { (r : RingValue) (A : Part) → IsValue r A a.now → IfOk result (λ s. IsValue r (flip_part A) s.value) }
    ensures exponent { IsErrOf result PolyError.Exponent → ⊥ }
{
    let flip = a.flip(alloc)?;
    shared(alloc, flip)
}

pub(crate) fn joined(alloc: Global, a: &Matrix, b: &Matrix) -> Result<Rc<Matrix>, PolyError>
    requires ring { b.now.ring ≡ a.now.ring }
    requires rows { b.now.rows ≡ a.now.rows }
    requires few { length a.now.columns + length b.now.columns < 2 ^ 32 }
    ensures value { (r : RingValue) (A B : Part) → IsValue r A a.now → IsValue r B b.now → IfOk result (λ s. IsValue r (beside_part A B) s.value) }
    ensures exponent { IsErrOf result PolyError.Exponent → ⊥ }
{
    let both = a.beside(alloc, b)?;
    shared(alloc, both)
}

/// This matrix with b below it.
pub(crate) fn stacked(alloc: Global, a: &Matrix, b: &Matrix) -> Result<Rc<Matrix>, PolyError>
    requires ring { b.now.ring ≡ a.now.ring }
    requires columns { length b.now.columns ≡ length a.now.columns }
    requires few { a.now.rows + b.now.rows < 2 ^ 32 }
    ensures value { (r : RingValue) (A B : Part) → IsValue r A a.now → IsValue r B b.now → IfOk result (λ s. IsValue r (stack_part A B) s.value) }
    ensures exponent { IsErrOf result PolyError.Exponent → ⊥ }
{
    let both = a.stack(alloc, b)?;
    shared(alloc, both)
}

pub(crate) fn multiplied(alloc: Global, a: &Matrix, b: &Matrix) -> Result<Rc<Matrix>, PolyError>
    requires ring { b.now.ring ≡ a.now.ring }
    requires inner { b.now.rows ≡ length a.now.columns }
    ensures value { (r : RingValue) (A B : Part) → IsValue r A a.now → IsValue r B b.now → IfOk result (λ s. IsValue r (times_part A B) s.value) }
    ensures exponent { (r : RingValue) (A B : Part) → IsValue r A a.now → IsValue r B b.now → IsErrOf result PolyError.Exponent → is_within_bound r (times_part A B) ≡ false }
{
    let product = a.times(alloc, b)?;
    shared(alloc, product)
}
