// What a division leaves, without its quotients.
ghost use Rattle.std.specs.Prelude.{IfOk, IsErrOf, OnOk, length, ◌<◌, ◌^◌, ◌≡◌};
ghost use Rattle.fm_complete.specs.Divisions.{AreMembers, terms_of};
ghost use Rattle.fm_complete.specs.Reductions.{reduced};
ghost use Rattle.fm_complete.specs.Remainders.{remainder_of, remainder_run, remainder_value};
ghost use Rattle.fm_complete.specs.Indexed.{IsIndexOf};
ghost use Rattle.fm_complete.specs.Spread.{IsFront, tail_columns};
ghost use Rattle.fm_run.specs.Runs.{Follows, ended_with};

use crate::dividing::numbers;
use crate::head_index::HeadIndex;
use crate::spreading::Tail;
use crate::starting::reduce;
use fm_run::{Stop, Work};
use fm_vec::Vector;
use std::alloc::Global;

/// The numbers of the members in the order in which they were taken, and the rest.
#[derive(Drop)]
pub struct Remainder {
    pub by: Vec<u32>,
    pub rest: Vector,
}

/// Divides v as `divide` does, and keeps no quotients.
pub fn rest_of(
    alloc: Global,
    basis: &[Vector],
    v: &Vector,
    work: &mut Work,
) -> Result<Remainder, Stop>
    requires members { AreMembers v.now.ring v.now.rows basis.now }
    requires few { length basis.now < 2 ^ 32 }
    ensures follows { Follows remainder_value result work.old work.new (remainder_run basis.now v.now work.old) }
    ensures paid { IsErrOf result Stop.Memory → work.new < work.old }
    ensures same { IfOk result (λ x. (x.rest.ring ≡ v.now.ring) × (x.rest.rows ≡ v.now.rows)) }
{
    if !work.spend() {
        return Err(Stop::Budget);
    }
    match reduced_rest(alloc, basis, v, work) {
        Ok(remainder) => Ok(remainder),
        Err(stop) => Err(stop),
    }
}

/// The head reductions of v, where the unit for v is spent already.
pub fn reduced_rest(
    alloc: Global,
    basis: &[Vector],
    v: &Vector,
    work: &mut Work,
) -> Result<Remainder, Stop>
    requires members { AreMembers v.now.ring v.now.rows basis.now }
    requires few { length basis.now < 2 ^ 32 }
    ensures follows { Follows remainder_value result work.old work.new
        (ended_with remainder_of (reduced v.now.ring (terms_of basis.now) work.old v.now.terms)) }
    ensures same { IfOk result (λ x. (x.rest.ring ≡ v.now.ring) × (x.rest.rows ≡ v.now.rows)) }
{
    let heads = HeadIndex::of(alloc, v.ring(), v.length(), basis)?;
    let mut tails = Vec::new(alloc);
    rest_by(alloc, basis, &heads, &mut tails, v, work)
}

/// Divides v as `rest_of` does, where the heads of the members, and some of their tails, are there already.
pub(crate) fn divided_rest(
    alloc: Global,
    basis: &[Vector],
    heads: &HeadIndex,
    tails: &mut Vec<Tail>,
    v: &Vector,
    work: &mut Work,
) -> Result<Remainder, Stop>
    requires members { AreMembers v.now.ring v.now.rows basis.now }
    requires few { length basis.now < 2 ^ 32 }
    requires heads { IsIndexOf v.now.ring v.now.rows (terms_of basis.now) heads.now }
    requires tails { IsFront tails.old.items (tail_columns v.now.ring v.now.rows (terms_of basis.now)) }
    ensures follows { Follows remainder_value result work.old work.new (remainder_run basis.now v.now work.old) }
    ensures same { IfOk result (λ x. (x.rest.ring ≡ v.now.ring) × (x.rest.rows ≡ v.now.rows)) }
    ensures tails { OnOk result (IsFront tails.new.items (tail_columns v.now.ring v.now.rows (terms_of basis.now))) }
{
    if !work.spend() {
        return Err(Stop::Budget);
    }
    match rest_by(alloc, basis, heads, tails, v, work) {
        Ok(remainder) => Ok(remainder),
        Err(stop) => Err(stop),
    }
}

/// The head reductions of v, where the unit for v is spent already, and the heads of the members, and some of their tails, are there already.
pub(crate) fn rest_by(
    alloc: Global,
    basis: &[Vector],
    heads: &HeadIndex,
    tails: &mut Vec<Tail>,
    v: &Vector,
    work: &mut Work,
) -> Result<Remainder, Stop>
    requires members { AreMembers v.now.ring v.now.rows basis.now }
    requires few { length basis.now < 2 ^ 32 }
    requires heads { IsIndexOf v.now.ring v.now.rows (terms_of basis.now) heads.now }
    requires tails { IsFront tails.old.items (tail_columns v.now.ring v.now.rows (terms_of basis.now)) }
    ensures follows { Follows remainder_value result work.old work.new
        (ended_with remainder_of (reduced v.now.ring (terms_of basis.now) work.old v.now.terms)) }
    ensures same { IfOk result (λ x. (x.rest.ring ≡ v.now.ring) × (x.rest.rows ≡ v.now.rows)) }
    ensures tails { OnOk result (IsFront tails.new.items (tail_columns v.now.ring v.now.rows (terms_of basis.now))) }
{
    let reduction = reduce(alloc, basis, heads, tails, v, work)?;
    let by = numbers(alloc, &reduction.steps)?;
    Ok(Remainder {
        by,
        rest: reduction.rest,
    })
}
