// S-vectors of critical pairs.
ghost use Rattle.std.specs.Prelude.{IfOk, OnOk, length, ◌<◌, ◌^◌, ◌≡◌, ◌≤◌};
ghost use Rattle.fm_complete.specs.Completions.{s_divided};
ghost use Rattle.fm_complete.specs.Divisions.{AreMembers, terms_of};
ghost use Rattle.fm_complete.specs.Remainders.{remainder_of, remainder_value};
ghost use Rattle.fm_complete.specs.Standing.{AreReady};
ghost use Rattle.fm_complete.specs.Trails.{member_at};
ghost use Rattle.fm_run.specs.Runs.{Follows, ended_with};
ghost use Rattle.fm_vec.specs.Vectors.{HaveSVector};

use crate::Remainder;
use crate::head_index::HeadIndex;
use crate::remainder::rest_by;
use crate::spreading::Tail;
use fm_poly::{PolyError, Ring};
use fm_run::{Stop, Work};
use fm_vec::Vector;
use std::alloc::Global;

/// The head reductions of the S-vector of two members, given by their numbers from 1. Its unit is spent before it is formed.
pub(crate) fn s_rest(
    alloc: Global,
    ring: Ring,
    rows: u32,
    members: &[Vector],
    heads: &HeadIndex,
    tails: &mut Vec<Tail>,
    earlier: u32,
    later: u32,
    work: &mut Work,
) -> Result<Remainder, Stop>
    requires members { AreMembers ring rows members.now }
    requires few { length members.now < 2 ^ 32 }
    requires ready { AreReady ring rows members.now heads.now tails.old.items }
    requires earlier_low { 1 ≤ earlier }
    requires earlier_high { earlier ≤ length members.now }
    requires later_low { 1 ≤ later }
    requires later_high { later ≤ length members.now }
    requires heads { HaveSVector (member_at (terms_of members.now) earlier) (member_at (terms_of members.now) later) }
    ensures follows { Follows remainder_value result work.old work.new
        (ended_with remainder_of
        (s_divided ring (terms_of members.now) (member_at (terms_of members.now) earlier)
        (member_at (terms_of members.now) later) work.old)) }
    ensures same { IfOk result (λ x. (x.rest.ring ≡ ring) × (x.rest.rows ≡ rows)) }
    ensures ready { OnOk result (AreReady ring rows members.now heads.now tails.new.items) }
{
    if !work.spend() {
        return Err(Stop::Budget);
    }
    let f = member(ring, rows, members, earlier);
    let g = member(ring, rows, members, later);
    let s = match f.s_vector(alloc, g) {
        Ok(s) => s,
        Err(PolyError::Exponent) => return Err(Stop::Exponent),
        Err(PolyError::Memory) => return Err(Stop::Memory),
    };
    rest_by(alloc, members, heads, tails, &s, work)
}

/// The member of a number from 1.
pub(crate) fn member<'a>(ring: Ring, rows: u32, members: &'a [Vector], number: u32) -> &'a Vector
    requires members { AreMembers ring rows members.now }
    requires low { 1 ≤ number }
    requires high { number ≤ length members.now }
    ensures terms { result.now.terms ≡ member_at (terms_of members.entry.now) number }
    ensures ring { result.now.ring ≡ ring }
    ensures rows { result.now.rows ≡ rows }
{
    let (_before, from) = members.split_at(number as usize - 1);
    let Some((v, _later)) = from.split_first() else {
        unreachable!();
    };
    v
}
