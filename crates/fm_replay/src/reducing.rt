// Head reductions by members that are named.
ghost use Rattle.std.specs.Prelude.{IfOk, ℕ, ◌≡◌};
ghost use Rattle.fm_complete.specs.Divisions.{terms_of};
ghost use Rattle.fm_complete.specs.Standing.{AreOfShape};
ghost use Rattle.fm_parts.specs.Replays as definitions;
ghost use Rattle.fm_parts.specs.Replays.{Reason};
ghost use Rattle.fm_replay.specs.Refusals.{Gives};

use crate::Refusal;
use crate::stepping::reduce_once;
use fm_poly::Ring;
use fm_vec::Vector;
use std::alloc::Global;

/// Reduces v by each member that is named, in turn: its head has to divide the head of what was left before. Two buffers take turns.
pub fn reduce_by(
    alloc: Global,
    ring: Ring,
    rows: u32,
    members: &[Vector],
    by: &[u32],
    v: Vector,
) -> Result<Vector, Refusal>
    requires members { AreOfShape ring rows members.now }
    requires ring { v.ring ≡ ring }
    requires rows { v.rows ≡ rows }
    ensures follows { (why : Reason) → Gives why (λ w. w.terms) result (definitions.reduce_by ring why (terms_of members.now) by.now v.terms) }
    ensures shape { IfOk result (λ w. (w.ring ≡ ring) × (w.rows ≡ rows)) }
{
    let mut left = by;
    let mut rest = v;
    let mut spare = Vec::new(alloc);
    'numbers: loop {
        let Some((k, later)) = left.split_first() else {
            return Ok(rest);
        };
        let next = match reduce_once(ring, rows, members, *k, spare, &rest) {
            Ok(next) => next,
            Err(refusal) => return Err(refusal),
        };
        spare = rest.into_terms();
        rest = next;
        left = later;
    }
}
