// Long vectors as buckets, one for each component.
ghost use Rattle.std.specs.Prelude.{IfErr, IfNone, IfOk, IfSome, IsErrOf, List, OnOk, [], false, length, true, ℕ, ◌++◌, ◌+◌, ◌<◌, ◌^◌, ◌∷◌, ◌≡◌, ◌≢◌, ◌≤◌};
ghost use Rattle.fm_gfp.specs.Primes.{prime_value};
ghost use Rattle.fm_poly.specs.Polys.{IsCanonical};
ghost use Rattle.fm_poly.specs.Steps.{row_fits};
ghost use Rattle.fm_poly.specs.declared.ring.Ring.{Ring as RingValue};
ghost use Rattle.fm_bucket.specs.Levels.{levels_sum};
ghost use Rattle.fm_vec.specs.Components.{AreOver, column_from, component_meaning, component_terms};
ghost use Rattle.fm_vec.specs.Multiples.{multiple_fits, negated, plus_multiple};
ghost use Rattle.fm_vec.specs.Steps.{AreFrom};
ghost use Rattle.fm_term.specs.Falling.{AreTerms, AreWithin};
ghost use Rattle.fm_vec.specs.Vectors.{IsVector};
ghost use Rattle.fm_term.specs.declared.vterm.VTerm.{VTerm as VectorTerm};
ghost use Rattle.fm_complete.specs.Divisions.{AreMembers, terms_of};
ghost use Rattle.fm_complete.specs.Spread.{AllFit, AreOf, AreParts, IsFront, tail_column, tail_columns};

use crate::Step;
use fm_bucket::Bucket;
use fm_poly::{Poly, PolyError, Ring, Term};
use fm_run::Stop;
use fm_term::VTerm;
use fm_vec::Vector;
use std::alloc::{AllocError, Global};
use std::marker::Model;

/// The components of a member without its head.
#[derive(Drop)]
pub(crate) struct Tail {
    column: Vec<Poly>,
}

impl Model for Tail {
    ghost use Rattle.std.specs.Prelude.{List};
    ghost use Rattle.fm_poly.specs.Polys.{PolyValue};

    ghost Value = { List PolyValue };

    ghost view = { λ t. t.column.items };
}

impl Tail {
    pub fn column(&self) -> &[Poly]
        ensures { result.now ≡ self.now }
    {
        &self.column
    }
}

/// Appends the tails of the members that have none yet.
pub(crate) fn fill_tails(
    alloc: Global,
    ring: Ring,
    rows: u32,
    basis: &[Vector],
    tails: &mut Vec<Tail>,
) -> Result<(), AllocError>
    requires members { AreMembers ring rows basis.now }
    requires front { IsFront tails.old.items (tail_columns ring rows (terms_of basis.now)) }
    ensures { OnOk result (tails.new.items ≡ tail_columns ring rows (terms_of basis.now)) }
{
    'members: loop {
        let k = tails.len();
        if k >= basis.len() {
            return Ok(());
        }
        tails.push(without_head(alloc, ring, rows, &basis[k])?)?;
    }
}

fn without_head(alloc: Global, ring: Ring, rows: u32, b: &Vector) -> Result<Tail, AllocError>
    requires ring { b.now.ring ≡ ring }
    requires rows { b.now.rows ≡ rows }
    ensures { IfOk result (λ t. t ≡ tail_column ring rows b.now.terms) }
{
    let Some((_head, later)) = b.terms().split_first() else {
        return Ok(Tail {
            column: Vec::new(alloc),
        });
    };
    let terms = Vec::from_slice(alloc, later)?;
    let rest = Vector::from_falling(ring, rows, terms);
    let column = rest.to_column(alloc)?;
    Ok(Tail { column })
}

/// The components of a vector as buckets.
pub(crate) fn spread(alloc: Global, v: &Vector) -> Result<Vec<Bucket>, AllocError>
    ensures parts { IfOk result (λ out. AreParts v.now.ring 1 out.items v.now.terms) }
    ensures count { IfOk result (λ out. length out.items ≡ v.now.rows) }
{
    let column = v.to_column(alloc)?;
    let mut out = Vec::with_capacity(alloc, column.len())?;
    let mut left = column.as_slice();
    'column: loop {
        let Some((f, later)) = left.split_first() else {
            return Ok(out);
        };
        out.push(Bucket::of(alloc, f)?)?;
        left = later;
    }
}

/// Takes the head off, where it stands in the component after the given one; v is what the buckets hold.
pub(crate) fn take_at(ring: Ring, buckets: &mut [Bucket], at: usize) -> Option<Term>
    requires { at < length buckets.old }
    ensures none { IfNone result ((n : ℕ) (v : List VectorTerm) → IsVector ring n v → AreFrom (at + 1) v → AreParts ring 1 buckets.old v
        → AreParts ring 1 buckets.new v × AreFrom (at + 2) v) }
    ensures some { IfSome result
        (λ t. (n : ℕ) (v : List VectorTerm) → IsVector ring n v → AreFrom (at + 1) v → AreParts ring 1 buckets.old v
        → (ts : List VectorTerm) × (v ≡ record { component = at + 1; mono = t.mono; coeff = t.coeff } ∷ ts) × AreParts ring 1 buckets.new ts) }
    ensures count { length buckets.new ≡ length buckets.old }
{
    buckets[at].take_lead()
}

/// Adds the term times each of the polynomials to its bucket.
pub(crate) fn add_parts(
    ring: Ring,
    buckets: &mut [Bucket],
    t: &Term,
    parts: &[Poly],
) -> Result<(), PolyError>
    requires buckets { AreOf ring buckets.old }
    requires parts { AreOver ring parts.now }
    requires long { length buckets.old ≡ length parts.now }
    requires term { IsCanonical ring (t.now ∷ []) }
    ensures sum { OnOk result
        ((k n : ℕ) (ts f : List VectorTerm) → AreTerms ring.prime ring.vars ts → parts.now ≡ column_from ring n k ts
        → AreParts ring k buckets.old f
        → AreParts ring k buckets.new (plus_multiple ring t.now.coeff t.now.mono ts f)) }
    ensures fits { OnOk result (AllFit t.now parts.now) }
    ensures exponent { IsErrOf result PolyError.Exponent → AllFit t.now parts.now → ⊥ }
    ensures count { length buckets.new ≡ length buckets.old }
{
    let Some((f, later_parts)) = parts.split_first() else {
        return Ok(());
    };
    let Some((b, later)) = buckets.split_first_mut() else {
        unreachable!();
    };
    add_part(ring, b, t, f)?;
    add_parts(ring, later, t, later_parts)?;
    Ok(())
}

#[inline]
fn add_part(ring: Ring, b: &mut Bucket, t: &Term, f: &Poly) -> Result<(), PolyError>
    requires bucket { b.old.ring ≡ ring }
    requires part { f.now.ring ≡ ring }
    requires term { IsCanonical ring (t.now ∷ []) }
    ensures ring { b.new.ring ≡ b.old.ring }
    ensures sum { OnOk result
        ((k : ℕ) (ts g : List VectorTerm) → AreTerms ring.prime ring.vars ts → f.now.terms ≡ component_terms k ts
        → levels_sum ring b.old.lists ≡ component_meaning ring k g
        → levels_sum ring b.new.lists ≡ component_meaning ring k (plus_multiple ring t.now.coeff t.now.mono ts g)) }
    ensures fits { OnOk result (row_fits t.now f.now.terms ≡ true) }
    ensures exponent { IsErrOf result PolyError.Exponent → row_fits t.now f.now.terms ≡ false }
{
    let terms = f.terms();
    if terms.is_empty() {
        return Ok(());
    }
    b.add_multiple(t, terms)?;
    Ok(())
}

/// Takes the step's multiple of a member's tail away.
pub(crate) fn subtract(
    ring: Ring,
    buckets: &mut [Bucket],
    step: &Step,
    tail: &Tail,
) -> Result<(), Stop>
    requires buckets { AreOf ring buckets.old }
    requires tail { AreOver ring tail.now }
    requires long { length buckets.old ≡ length tail.now }
    requires vars { length step.now.mono ≡ ring.vars }
    requires some { 0 < step.now.coeff }
    requires below { step.now.coeff < prime_value ring.prime }
    ensures sum { OnOk result
        ((n : ℕ) (ts f : List VectorTerm) → AreTerms ring.prime ring.vars ts → tail.now ≡ column_from ring n 1 ts
        → AreParts ring 1 buckets.old f
        → AreParts ring 1 buckets.new (plus_multiple ring (negated ring step.now.coeff) step.now.mono ts f)) }
    ensures fits { OnOk result
        ((n : ℕ) (ts : List VectorTerm) → AreWithin n ts → tail.now ≡ column_from ring n 1 ts → multiple_fits step.now.mono ts ≡ true) }
    ensures exponent { IsErrOf result Stop.Exponent → (n : ℕ) (ts : List VectorTerm) → tail.now ≡ column_from ring n 1 ts
        → multiple_fits step.now.mono ts ≡ false }
    ensures paid { IsErrOf result Stop.Budget → ⊥ }
    ensures count { length buckets.new ≡ length buckets.old }
{
    let t = Term {
        mono: step.mono,
        coeff: ring.prime.neg(step.coeff),
    };
    match add_parts(ring, buckets, &t, tail.column()) {
        Ok(()) => Ok(()),
        Err(PolyError::Exponent) => Err(Stop::Exponent),
        Err(PolyError::Memory) => Err(Stop::Memory),
    }
}

/// The vector that the buckets hold behind its head.
pub(crate) fn finish(
    alloc: Global,
    ring: Ring,
    rows: u32,
    head: VTerm,
    buckets: &[Bucket],
) -> Result<Vector, AllocError>
    requires count { length buckets.now ≡ rows }
    requires holds { (ts : List VectorTerm) × IsVector ring rows (head ∷ ts) × AreParts ring 1 buckets.now ts }
    ensures ring { IfOk result (λ v. v.ring ≡ ring) }
    ensures rows { IfOk result (λ v. v.rows ≡ rows) }
    ensures terms { IfOk result
        (λ v. (ts : List VectorTerm) → IsVector ring rows (head ∷ ts) → AreParts ring 1 buckets.now ts → v.terms ≡ head ∷ ts) }
{
    let column = gather(alloc, buckets)?;
    let later = Vector::from_column(alloc, ring, &column)?;
    let mut terms = Vec::new(alloc);
    terms.push(head)?;
    terms.extend_from_slice(later.terms())?;
    Ok(Vector::from_falling(ring, rows, terms))
}

/// The components of the vector that the buckets hold.
pub(crate) fn gather(alloc: Global, buckets: &[Bucket]) -> Result<Vec<Poly>, AllocError>
    ensures column { IfOk result
        (λ out. (r : RingValue) (n : ℕ) (v : List VectorTerm) → IsVector r n v → AreParts r 1 buckets.now v
        → out.items ≡ column_from r (length buckets.now) 1 v) }
    ensures over { IfOk result (λ out. (r : RingValue) → AreOf r buckets.now → AreOver r out.items) }
{
    let mut out = Vec::with_capacity(alloc, buckets.len())?;
    let mut buckets = buckets;
    'buckets: loop {
        let Some((b, later)) = buckets.split_first() else {
            return Ok(out);
        };
        out.push(b.value(alloc)?)?;
        buckets = later;
    }
}
