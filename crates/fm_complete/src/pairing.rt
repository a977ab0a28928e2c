// The pairs of a new member.
ghost use Rattle.std.specs.Prelude.{OnOk, [], false, length, ◌∷◌, ◌<◌, ◌^◌, ◌≡◌};
ghost use Rattle.fm_term.specs.Falling.{IsTerm};
ghost use Rattle.fm_complete.specs.Completions.{with_pair, with_pairs};
ghost use Rattle.fm_complete.specs.Divisions.{AreMembers, terms_of};
ghost use Rattle.fm_complete.specs.Pairs.{ArePairsOver, EachPair};
ghost use Rattle.fm_complete.specs.Pending.{has_numbers};
ghost use Rattle.fm_complete.specs.declared.critical_pair.CriticalPair.{CriticalPair as PairValue};

use crate::CriticalPair;
use crate::pending::Pending;
use fm_poly::Ring;
use fm_term::VTerm;
use fm_vec::Vector;
use std::alloc::AllocError;

/// The pair of a new member, with the head t, and a member before it, where their heads are in one component.
fn push_pair(
    ring: Ring,
    later: u32,
    t: &VTerm,
    earlier: u32,
    u: &VTerm,
    pending: &mut Pending,
) -> Result<(), AllocError>
    requires t_term { IsTerm ring.prime ring.vars t.now }
    requires u_term { IsTerm ring.prime ring.vars u.now }
    requires pending { ArePairsOver ring.vars pending.old.pairs }
    requires order { pending.old.order ≡ ring.order }
    requires new { has_numbers pending.old.pairs earlier later ≡ false }
    ensures pairs { OnOk result (pending.new.pairs ≡ with_pair ring.order later t.now earlier (u.now ∷ []) pending.old.pairs) }
    ensures over { OnOk result (ArePairsOver ring.vars pending.new.pairs) }
    ensures order { pending.new.order ≡ pending.old.order }
{
    if u.component != t.component {
        return Ok(());
    }
    pending.insert(CriticalPair {
        component: t.component,
        lcm: u.mono.lcm(t.mono),
        later,
        earlier,
    })
}

/// The pairs of a new member, with the head t, and each of the members.
pub(crate) fn push_pairs(
    ring: Ring,
    rows: u32,
    later: u32,
    t: &VTerm,
    members: &[Vector],
    pending: &mut Pending,
) -> Result<(), AllocError>
    requires term { IsTerm ring.prime ring.vars t.now }
    requires members { AreMembers ring rows members.now }
    requires few { length members.now < 2 ^ 32 }
    requires pending { ArePairsOver ring.vars pending.old.pairs }
    requires order { pending.old.order ≡ ring.order }
    requires new { EachPair (λ (p : PairValue). p.later < later) pending.old.pairs }
    ensures pairs { OnOk result (pending.new.pairs ≡ with_pairs ring.order later t.now 1 (terms_of members.now) pending.old.pairs) }
    ensures over { OnOk result (ArePairsOver ring.vars pending.new.pairs) }
    ensures order { pending.new.order ≡ pending.old.order }
{
    let mut left = members;
    'members: loop {
        let Some((g, before)) = left.split_last() else {
            return Ok(());
        };
        let Some(u) = g.head() else {
            unreachable!();
        };
        push_pair(ring, later, t, before.len() as u32 + 1, &u, pending)?;
        left = before;
    }
}
