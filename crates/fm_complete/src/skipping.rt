// Which pairs the chain criterion lets be skipped.
ghost use Rattle.std.specs.Prelude.{length, ◌∷◌, [], ◌≡◌};
ghost use Rattle.fm_term.specs.Falling.{IsTerm};
ghost use Rattle.fm_complete.specs.Completions.{divides_pair, lets_skip, skipper};
ghost use Rattle.fm_complete.specs.Divisions.{terms_of};
ghost use Rattle.fm_complete.specs.Indexed.{EachHead, IsIndexOf, first_skipper};

use crate::CriticalPair;
use crate::head_index::{Head, HeadIndex};
use crate::pending::Pending;
use fm_poly::Ring;
use fm_term::VTerm;
use fm_vec::Vector;

/// Whether the head f is in the component of the pair and divides its least common multiple.
fn divides(f: &VTerm, p: &CriticalPair) -> bool
    requires { length f.now.mono ≡ length p.now.lcm }
    ensures { result ≡ divides_pair (f.now ∷ []) p.now }
{
    if f.component != p.component {
        return false;
    }
    f.mono.divides(p.lcm)
}

/// Whether the member of this number, with the head f, lets the pair be skipped.
fn skips(pending: &Pending, p: &CriticalPair, number: u32, f: &VTerm) -> bool
    requires { length f.now.mono ≡ length p.now.lcm }
    ensures { result ≡ lets_skip pending.now.pairs p.now number (f.now ∷ []) }
{
    let other = number != p.earlier && number != p.later;
    let divides = divides(f, p);
    if !other || !divides {
        return false;
    }
    if pending.contains(p.earlier, number) {
        return false;
    }
    !pending.contains(number, p.later)
}

/// The first member that lets the pair be skipped.
pub(crate) fn find_skipper(
    ring: Ring,
    rows: u32,
    members: &[Vector],
    heads: &HeadIndex,
    pending: &Pending,
    p: &CriticalPair,
) -> Option<u32>
    requires heads { IsIndexOf ring rows (terms_of members.now) heads.now }
    requires pair { length p.now.lcm ≡ ring.vars }
    ensures { result ≡ skipper pending.now.pairs p.now 1 (terms_of members.now) }
{
    first_skipping(ring, heads.row(p.component), pending, p)
}

/// The number of the first of the heads whose member lets the pair be skipped.
fn first_skipping(ring: Ring, heads: &[Head], pending: &Pending, p: &CriticalPair) -> Option<u32>
    requires heads { EachHead (λ h. IsTerm ring.prime ring.vars h.term) heads.now }
    requires pair { length p.now.lcm ≡ ring.vars }
    ensures { result ≡ first_skipper pending.now.pairs p.now heads.now }
{
    let mut left = heads;
    'heads: loop {
        let (h, later) = left.split_first()?;
        if skips(pending, p, h.number, &h.term) {
            return Some(h.number);
        }
        left = later;
    }
}
