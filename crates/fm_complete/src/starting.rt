// The head reductions of a vector that stays as it is.
ghost use Rattle.std.specs.Prelude.{IfErr, IfOk, OnOk, [], length, ℕ, ◌<◌, ◌^◌, ◌≡◌};
ghost use Rattle.fm_poly.specs.Polys.{IsCanonical};
ghost use Rattle.fm_complete.specs.Divisions.{AreMembers, quotient_terms, terms_of};
ghost use Rattle.fm_complete.specs.Reduced.{reduction_value};
ghost use Rattle.fm_complete.specs.Reductions.{reduced};
ghost use Rattle.fm_complete.specs.Indexed.{IsIndexOf};
ghost use Rattle.fm_complete.specs.Spread.{IsFront, tail_columns};
ghost use Rattle.fm_run.specs.Runs.{Follows};

use crate::head_index::HeadIndex;
use crate::long::{LONG, reduce_long};
use crate::reducing::{Reduction, reduce_on};
use crate::spreading::Tail;
use crate::stepping::{cancel, find_step};
use fm_run::{Stop, Work};
use fm_vec::Vector;
use std::alloc::Global;

/// Reduces v, which it doesn't copy before the first step.
pub(crate) fn reduce(
    alloc: Global,
    basis: &[Vector],
    heads: &HeadIndex,
    tails: &mut Vec<Tail>,
    v: &Vector,
    work: &mut Work,
) -> Result<Reduction, Stop>
    requires members { AreMembers v.now.ring v.now.rows basis.now }
    requires few { length basis.now < 2 ^ 32 }
    requires heads { IsIndexOf v.now.ring v.now.rows (terms_of basis.now) heads.now }
    requires tails { IsFront tails.old.items (tail_columns v.now.ring v.now.rows (terms_of basis.now)) }
    ensures follows { Follows reduction_value result work.old work.new (reduced v.now.ring (terms_of basis.now) work.old v.now.terms) }
    ensures same { IfOk result (λ x. (x.rest.ring ≡ v.now.ring) × (x.rest.rows ≡ v.now.rows)) }
    ensures tails { OnOk result (IsFront tails.new.items (tail_columns v.now.ring v.now.rows (terms_of basis.now))) }
    ensures quotients { IfOk result (λ x. (number : ℕ) → IsCanonical v.now.ring (quotient_terms number x.steps.items)) }
{
    let Some(head) = v.head() else {
        return unchanged(alloc, v);
    };
    let Some((step, b)) = find_step(v.ring(), v.length(), basis, heads, &head) else {
        return unchanged(alloc, v);
    };
    if v.terms().len() > LONG {
        return reduce_long(alloc, basis, heads, tails, v, Vec::new(alloc), work);
    }
    if !work.spend() {
        return Err(Stop::Budget);
    }
    let buffer = Vec::with_capacity(alloc, v.terms().len())?;
    let rest = match cancel(v, buffer, &step, b) {
        Ok(rest) => rest,
        Err(stop) => return Err(stop),
    };
    let mut steps = Vec::new(alloc);
    steps.push(step)?;
    reduce_on(alloc, basis, heads, tails, rest, steps, work)
}

fn unchanged(alloc: Global, v: &Vector) -> Result<Reduction, Stop>
    ensures value { IfOk result (λ x. reduction_value x ≡ record { steps = []; rest = v.now.terms }) }
    ensures same { IfOk result (λ x. (x.rest.ring ≡ v.now.ring) × (x.rest.rows ≡ v.now.rows)) }
    ensures memory { IfErr result (λ e. e ≡ Stop.Memory) }
{
    let rest = v.copy(alloc)?;
    Ok(Reduction {
        steps: Vec::new(alloc),
        rest,
    })
}
