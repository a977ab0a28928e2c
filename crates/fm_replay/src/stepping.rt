// One head reduction by a given member.
ghost use Rattle.std.specs.Prelude.{IfOk, IfSome, length, ℕ, ◌<◌, ◌≡◌};
ghost use Rattle.fm_gfp.specs.Primes.{prime_value};
ghost use Rattle.fm_complete.specs.Divisions.{terms_of};
ghost use Rattle.fm_complete.specs.Standing.{AreOfShape};
ghost use Rattle.fm_complete.specs.Trails.{member_at};
ghost use Rattle.fm_parts.specs.Replays as definitions;
ghost use Rattle.fm_parts.specs.Replays.{Reason};
ghost use Rattle.fm_replay.specs.Refusals.{Gives};
ghost use Rattle.fm_replay.specs.Steps.{Cancels, head_step};

use crate::numbers::numbered;
use crate::{Fault, Refusal};
use fm_complete::{Step, divides, step_to};
use fm_poly::Ring;
use fm_run::Stop;
use fm_term::VTerm;
use fm_vec::Vector;

/// What the member of number k leaves of v, written into a buffer whose content is dropped.
pub(crate) fn reduce_once(
    ring: Ring,
    rows: u32,
    members: &[Vector],
    k: u32,
    buffer: Vec<VTerm>,
    v: &Vector,
) -> Result<Vector, Refusal>
    requires members { AreOfShape ring rows members.now }
    requires ring { v.now.ring ≡ ring }
    requires rows { v.now.rows ≡ rows }
    ensures follows { (why : Reason) → Gives why (λ w. w.terms) result (definitions.reduce_once ring why k (member_at (terms_of members.now) k) v.now.terms) }
    ensures shape { IfOk result (λ w. (w.ring ≡ ring) × (w.rows ≡ rows)) }
{
    let Some(b) = numbered(ring, rows, members, k) else {
        return Err(Refusal::Bad(Fault::Step));
    };
    let Some(step) = step_by(ring, k, b, v) else {
        return Err(Refusal::Bad(Fault::Step));
    };
    cancel(v, buffer, &step, b)
}

/// The step by which the head of b, the member of number k, cancels that of v, where it divides it.
fn step_by(ring: Ring, k: u32, b: &Vector, v: &Vector) -> Option<Step>
    requires b_ring { b.now.ring ≡ ring }
    requires v_ring { v.now.ring ≡ ring }
    ensures step { result ≡ head_step ring k b.now.terms v.now.terms }
    ensures vars { IfSome result (λ s. length s.mono ≡ ring.vars) }
    ensures coeff { IfSome result (λ s. (0 < s.coeff) × (s.coeff < prime_value ring.prime)) }
{
    let t = b.head()?;
    let s = v.head()?;
    if !divides(ring, &t, &s) {
        return None;
    }
    Some(step_to(ring, k, &t, &s))
}

/// What the step leaves of v.
fn cancel(v: &Vector, buffer: Vec<VTerm>, step: &Step, b: &Vector) -> Result<Vector, Refusal>
    requires ring { b.now.ring ≡ v.now.ring }
    requires rows { b.now.rows ≡ v.now.rows }
    requires vars { length step.now.mono ≡ v.now.ring.vars }
    requires some { 0 < step.now.coeff }
    requires below { step.now.coeff < prime_value v.now.ring.prime }
    ensures cancels { Cancels v.now.ring step.now b.now.terms v.now.terms result }
    ensures shape { IfOk result (λ w. (w.ring ≡ v.now.ring) × (w.rows ≡ v.now.rows)) }
{
    match fm_complete::cancel(v, buffer, step, b) {
        Ok(w) => Ok(w),
        Err(Stop::Exponent) => Err(Refusal::Bad(Fault::Exponents)),
        Err(Stop::Memory) => Err(Refusal::Memory),
        Err(Stop::Budget) => unreachable!(),
    }
}
