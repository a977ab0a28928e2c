// The head reductions of a division.
ghost use Rattle.std.specs.Prelude.{IfErr, IfOk, OnOk, [], length, ℕ, ◌<◌, ◌^◌, ◌≡◌};
ghost use Rattle.fm_poly.specs.Polys.{IsCanonical};
ghost use Rattle.fm_complete.specs.Divisions.{AreMembers, quotient_terms, terms_of};
ghost use Rattle.fm_complete.specs.Reductions.{reduced};
ghost use Rattle.fm_complete.specs.Reduced.{reduction_value};
ghost use Rattle.fm_run.specs.Runs.{Follows};
ghost use Rattle.fm_complete.specs.Indexed.{IsIndexOf};
ghost use Rattle.fm_complete.specs.Spread.{IsFront, tail_columns};
ghost use Rattle.fm_complete.specs.Trails.{IsTrail, ahead};

use crate::Step;
use crate::head_index::HeadIndex;
use crate::long::{LONG, reduce_long};
use crate::spreading::Tail;
use crate::stepping::{cancel, find_step};
use fm_run::{Stop, Work};
use fm_vec::Vector;
use std::alloc::Global;

/// The head reductions in their order, and the rest.
#[derive(Drop)]
pub(crate) struct Reduction {
    pub steps: Vec<Step>,
    pub rest: Vector,
}

/// Reduces what earlier steps left. Two buffers take turns; a vector that is or grows long goes into buckets.
pub(crate) fn reduce_on(
    alloc: Global,
    basis: &[Vector],
    heads: &HeadIndex,
    tails: &mut Vec<Tail>,
    rest: Vector,
    steps: Vec<Step>,
    work: &mut Work,
) -> Result<Reduction, Stop>
    requires members { AreMembers rest.ring rest.rows basis.now }
    requires few { length basis.now < 2 ^ 32 }
    requires heads { IsIndexOf rest.ring rest.rows (terms_of basis.now) heads.now }
    requires tails { IsFront tails.old.items (tail_columns rest.ring rest.rows (terms_of basis.now)) }
    requires trail { IsTrail rest.ring (terms_of basis.now) steps.items rest.terms }
    ensures follows { Follows reduction_value result work.old work.new
        (ahead steps.items (reduced rest.ring (terms_of basis.now) work.old rest.terms)) }
    ensures same { IfOk result (λ x. (x.rest.ring ≡ rest.ring) × (x.rest.rows ≡ rest.rows)) }
    ensures tails { OnOk result (IsFront tails.new.items (tail_columns rest.ring rest.rows (terms_of basis.now))) }
    ensures trail { IfOk result (λ x. IsTrail rest.ring (terms_of basis.now) x.steps.items x.rest.terms) }
{
    let ring = rest.ring();
    let rows = rest.length();
    let mut rest = rest;
    let mut steps = steps;
    let mut spare = Vec::new(alloc);
    'steps: loop {
        if rest.terms().len() > LONG {
            return reduce_long(alloc, basis, heads, tails, &rest, steps, work);
        }
        let Some(head) = rest.head() else {
            return Ok(Reduction { steps, rest });
        };
        let Some((step, b)) = find_step(ring, rows, basis, heads, &head) else {
            return Ok(Reduction { steps, rest });
        };
        if !work.spend() {
            return Err(Stop::Budget);
        }
        let next = match cancel(&rest, spare, &step, b) {
            Ok(next) => next,
            Err(stop) => return Err(stop),
        };
        steps.push(step)?;
        spare = rest.into_terms();
        rest = next;
    }
}
