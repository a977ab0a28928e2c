// One head reduction.
ghost use Rattle.std.specs.Prelude.{IfOk, IfSome, IsErrOf, MatchOption, None, OnOk, Some, false, length, true, ◌<◌, ◌^◌, ◌≡◌};
ghost use Rattle.fm_gfp.specs.Primes.{prime_value};
ghost use Rattle.fm_vec.specs.Multiples.{multiple_fits};
ghost use Rattle.fm_term.specs.Falling.{IsTerm};
ghost use Rattle.fm_vec.specs.Vectors.{IsVector};
ghost use Rattle.fm_complete.specs.Divisions.{AreMembers, terms_of};
ghost use Rattle.fm_complete.specs.Divisors.{first_step, step_for, term_divides};
ghost use Rattle.fm_complete.specs.Indexed.{EachHead, IsIndexOf, first_head};
ghost use Rattle.fm_complete.specs.Reductions.{cancelled};

use crate::Step;
use crate::head_index::{Head, HeadIndex};
use crate::pairs::member;
use fm_poly::{PolyError, Ring};
use fm_run::Stop;
use fm_term::VTerm;
use fm_vec::Vector;

/// The step by the first member whose head divides t, and this member.
pub(crate) fn find_step<'a>(
    ring: Ring,
    rows: u32,
    basis: &'a [Vector],
    heads: &HeadIndex,
    t: &VTerm,
) -> Option<(Step, &'a Vector)>
    requires term { IsTerm ring.prime ring.vars t.now }
    requires members { AreMembers ring rows basis.now }
    requires heads { IsIndexOf ring rows (terms_of basis.now) heads.now }
    requires few { length basis.now < 2 ^ 32 }
    ensures found { MatchOption result (first_step ring 1 (terms_of basis.entry.now) t.now ≡ None)
        (λ p. first_step ring 1 (terms_of basis.entry.now) t.now ≡ Some (p.0, p.1.now.terms)) }
    ensures member { IfSome result (λ p. (p.1.now.ring ≡ ring) × (p.1.now.rows ≡ rows)) }
    ensures proper { IfSome result (λ p. IsVector ring rows p.1.now.terms) }
    ensures step { IfSome result (λ p. (length p.0.mono ≡ ring.vars) × (0 < p.0.coeff) × (p.0.coeff < prime_value ring.prime)) }
{
    let Some(head) = first_dividing(ring, heads.row(t.component), t) else {
        return None;
    };
    let b = member(ring, rows, basis, head.number);
    let _terms = b.head();
    let step = step_to(ring, head.number, &head.term, t);
    Some((step, b))
}

/// The first of the heads that divides t.
fn first_dividing(ring: Ring, heads: &[Head], t: &VTerm) -> Option<Head>
    requires term { IsTerm ring.prime ring.vars t.now }
    requires heads { EachHead (λ h. IsTerm ring.prime ring.vars h.term) heads.now }
    ensures { result ≡ first_head heads.now t.now }
{
    let mut left = heads;
    'heads: loop {
        let (h, later) = left.split_first()?;
        if divides(ring, &h.term, t) {
            return Some(*h);
        }
        left = later;
    }
}

/// Whether the term b divides t: both are in one component, and no exponent of b is larger.
#[inline]
pub fn divides(ring: Ring, b: &VTerm, t: &VTerm) -> bool
    requires b_term { IsTerm ring.prime ring.vars b.now }
    requires t_term { IsTerm ring.prime ring.vars t.now }
    ensures { result ≡ term_divides b.now t.now }
{
    if b.component != t.component {
        return false;
    }
    b.mono.divides(t.mono)
}

/// The step by which the member of this number, with the head b, cancels t.
pub fn step_to(ring: Ring, number: u32, b: &VTerm, t: &VTerm) -> Step
    requires b_term { IsTerm ring.prime ring.vars b.now }
    requires t_term { IsTerm ring.prime ring.vars t.now }
    requires divides { term_divides b.now t.now ≡ true }
    ensures value { result ≡ step_for ring number b.now t.now }
    ensures vars { length result.mono ≡ ring.vars }
    ensures some { 0 < result.coeff }
    ensures below { result.coeff < prime_value ring.prime }
{
    let inverse = ring.prime.inverse(b.coeff);
    Step {
        number,
        mono: t.mono.quotient(b.mono),
        coeff: ring.prime.mul(t.coeff, inverse),
    }
}

/// What the step leaves of v by its member b, written into a buffer whose content is dropped. It passes once over both.
pub fn cancel(v: &Vector, buffer: Vec<VTerm>, step: &Step, b: &Vector) -> Result<Vector, Stop>
    requires ring { b.now.ring ≡ v.now.ring }
    requires rows { b.now.rows ≡ v.now.rows }
    requires vars { length step.now.mono ≡ v.now.ring.vars }
    requires some { 0 < step.now.coeff }
    requires below { step.now.coeff < prime_value v.now.ring.prime }
    ensures value { IfOk result
        (λ w. w ≡ record { ring = v.now.ring; rows = v.now.rows; terms = cancelled v.now.ring (step.now, b.now.terms) v.now.terms }) }
    ensures fits { OnOk result (multiple_fits step.now.mono b.now.terms ≡ true) }
    ensures exponent { IsErrOf result Stop.Exponent → multiple_fits step.now.mono b.now.terms ≡ false }
    ensures paid { IsErrOf result Stop.Budget → ⊥ }
{
    let minus = v.ring().prime.neg(step.coeff);
    match v.plus_multiple(buffer, minus, step.mono, b) {
        Ok(w) => Ok(w),
        Err(PolyError::Exponent) => Err(Stop::Exponent),
        Err(PolyError::Memory) => Err(Stop::Memory),
    }
}
