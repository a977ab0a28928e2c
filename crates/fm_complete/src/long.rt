// The head reductions of a long vector, which is kept in buckets.
ghost use Rattle.std.specs.Prelude.{IfOk, OnOk, length, ◌<◌, ◌^◌, ◌≡◌};
ghost use Rattle.fm_vec.specs.Vectors.{IsVector};
ghost use Rattle.fm_complete.specs.Divisions.{AreMembers, terms_of};
ghost use Rattle.fm_complete.specs.Reduced.{reduction_value};
ghost use Rattle.fm_complete.specs.Reductions.{reduced};
ghost use Rattle.fm_run.specs.Runs.{Follows};
ghost use Rattle.fm_complete.specs.Indexed.{IsIndexOf};
ghost use Rattle.fm_complete.specs.Spread.{AreParts, IsFront, tail_columns};
ghost use Rattle.fm_complete.specs.Trails.{IsTrail, ahead};

use crate::Step;
use crate::head_index::HeadIndex;
use crate::reducing::Reduction;
use crate::spreading::{Tail, fill_tails, finish, spread, subtract, take_at};
use crate::stepping::find_step;
use fm_bucket::Bucket;
use fm_run::{Stop, Work};
use fm_term::VTerm;
use fm_vec::Vector;
use std::alloc::Global;

/// A vector with more terms than this is kept in buckets.
pub(crate) const LONG: usize = 100;

/// Reduces what earlier steps left, in buckets.
pub(crate) fn reduce_long(
    alloc: Global,
    basis: &[Vector],
    heads: &HeadIndex,
    tails: &mut Vec<Tail>,
    rest: &Vector,
    steps: Vec<Step>,
    work: &mut Work,
) -> Result<Reduction, Stop>
    requires members { AreMembers rest.now.ring rest.now.rows basis.now }
    requires few { length basis.now < 2 ^ 32 }
    requires heads { IsIndexOf rest.now.ring rest.now.rows (terms_of basis.now) heads.now }
    requires tails { IsFront tails.old.items (tail_columns rest.now.ring rest.now.rows (terms_of basis.now)) }
    requires trail { IsTrail rest.now.ring (terms_of basis.now) steps.items rest.now.terms }
    ensures follows { Follows reduction_value result work.old work.new
        (ahead steps.items (reduced rest.now.ring (terms_of basis.now) work.old rest.now.terms)) }
    ensures same { IfOk result (λ x. (x.rest.ring ≡ rest.now.ring) × (x.rest.rows ≡ rest.now.rows)) }
    ensures tails { OnOk result (IsFront tails.new.items (tail_columns rest.now.ring rest.now.rows (terms_of basis.now))) }
    ensures trail { IfOk result (λ x. IsTrail rest.now.ring (terms_of basis.now) x.steps.items x.rest.terms) }
{
    fill_tails(alloc, rest.ring(), rest.length(), basis, tails)?;
    let mut buckets = spread(alloc, rest)?;
    run(alloc, basis, heads, tails, rest, &mut buckets, steps, work)
}

fn run(
    alloc: Global,
    basis: &[Vector],
    heads: &HeadIndex,
    tails: &[Tail],
    first: &Vector,
    buckets: &mut [Bucket],
    steps: Vec<Step>,
    work: &mut Work,
) -> Result<Reduction, Stop>
    requires members { AreMembers first.now.ring first.now.rows basis.now }
    requires few { length basis.now < 2 ^ 32 }
    requires heads { IsIndexOf first.now.ring first.now.rows (terms_of basis.now) heads.now }
    requires tails { tails.now ≡ tail_columns first.now.ring first.now.rows (terms_of basis.now) }
    requires parts { AreParts first.now.ring 1 buckets.old first.now.terms }
    requires count { length buckets.old ≡ first.now.rows }
    requires trail { IsTrail first.now.ring (terms_of basis.now) steps.items first.now.terms }
    ensures follows { Follows reduction_value result work.old work.new
        (ahead steps.items (reduced first.now.ring (terms_of basis.now) work.old first.now.terms)) }
    ensures same { IfOk result (λ x. (x.rest.ring ≡ first.now.ring) × (x.rest.rows ≡ first.now.rows)) }
    ensures trail { IfOk result (λ x. IsTrail first.now.ring (terms_of basis.now) x.steps.items x.rest.terms) }
{
    let ring = first.ring();
    let rows = first.length();
    let _terms = first.terms();
    let mut steps = steps;
    let mut at = 0;
    'turns: loop {
        if at >= buckets.len() {
            let rest = Vector::from_falling(ring, rows, Vec::new(alloc));
            return Ok(Reduction { steps, rest });
        }
        let Some(t) = take_at(ring, buckets, at) else {
            at += 1;
            continue 'turns;
        };
        let head = VTerm {
            component: at as u32 + 1,
            mono: t.mono,
            coeff: t.coeff,
        };
        let _vars = head.mono.vars();
        let Some((step, _b)) = find_step(ring, rows, basis, heads, &head) else {
            let rest = finish(alloc, ring, rows, head, buckets)?;
            return Ok(Reduction { steps, rest });
        };
        if !work.spend() {
            return Err(Stop::Budget);
        }
        match subtract(ring, buckets, &step, &tails[step.number as usize - 1]) {
            Ok(()) => {}
            Err(stop) => return Err(stop),
        }
        steps.push(step)?;
    }
}
