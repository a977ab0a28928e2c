// What an answer tells.
ghost use Rattle.std.specs.Prelude.{IfOk, List, [], ◌≡◌};
ghost use Rattle.fm_problem.specs.declared.problem.Problem.{Problem as ProblemValue};
ghost use Rattle.fm_vec.specs.Components.{AreOver};
ghost use Rattle.fm_report.specs.Parts.{Part};
ghost use Rattle.fm_judge.specs.Claims as claims;
ghost use Rattle.fm_judge.specs.Goals as goals;
ghost use Rattle.fm_places.specs.Meanings.{IsAim, aim_of};

use fm_places::Aim;
use fm_poly::Poly;
use std::alloc::{AllocError, Global};

/// The rank of P_j, where the answer tells it.
pub(crate) fn told_rank(aim: &Aim, j: u64) -> Option<u64>
    ensures { (q : ProblemValue) (ps : List Part) → result ≡ goals.told_rank (aim_of q ps aim.now) j }
{
    match aim {
        Aim::Resolution { ranks } => ranks.get(j as usize).copied(),
        _ => None,
    }
}

/// The number of generators of the cocycles, where the answer tells it.
pub(crate) fn told_generators(aim: &Aim) -> Option<u64>
    ensures { (q : ProblemValue) (ps : List Part) → result ≡ goals.told_generators (aim_of q ps aim.now) }
{
    match aim {
        Aim::Ext { generators, .. } => Some(*generators),
        Aim::Root { rank, .. } => Some(*rank),
        _ => None,
    }
}

/// The number of relations, where the answer tells it.
pub(crate) fn told_relations(aim: &Aim) -> Option<u64>
    ensures { (q : ProblemValue) (ps : List Part) → result ≡ goals.told_relations (aim_of q ps aim.now) }
{
    match aim {
        Aim::Ext { relations, .. } => Some(*relations),
        _ => None,
    }
}

/// The place of the first repeat, where the answer tells it.
pub(crate) fn told_moves(aim: &Aim) -> Option<u64>
    ensures { (q : ProblemValue) (ps : List Part) → result ≡ goals.told_moves (aim_of q ps aim.now) }
{
    match aim {
        Aim::Root { moves, .. } => Some(*moves),
        Aim::Vanishing { moves, .. } => Some(*moves),
        _ => None,
    }
}

/// The stage of the class; 0 where the answer is on none.
pub(crate) fn stage(aim: &Aim) -> u8
    ensures { (q : ProblemValue) (ps : List Part) → result ≡ claims.stage_of (aim_of q ps aim.now) }
{
    match aim {
        Aim::Dying { e, .. } => *e,
        Aim::Living { e, .. } => *e,
        _ => 0,
    }
}

/// The entries of the class; none where the answer is on none.
pub(crate) fn class(aim: &Aim) -> &[Poly]
    ensures same { (q : ProblemValue) (ps : List Part) → result.now ≡ claims.class_of (aim_of q ps aim.entry.now) }
    ensures over { (q : ProblemValue) (ps : List Part) → IsAim q ps aim.entry.now → AreOver q.ring result.now }
{
    match aim {
        Aim::Dying { z, .. } => z,
        Aim::Living { z, .. } => z,
        _ => &[],
    }
}

/// The polynomial that is in the ideal or not, alone; none where the answer is on none.
pub(crate) fn member(alloc: Global, aim: &Aim) -> Result<Vec<Poly>, AllocError>
    ensures same { (q : ProblemValue) (ps : List Part) → IfOk result (λ v. v.items ≡ claims.member_of (aim_of q ps aim.now)) }
    ensures over { (q : ProblemValue) (ps : List Part) → IsAim q ps aim.now → IfOk result (λ v. AreOver q.ring v.items) }
{
    let Aim::Membership { f, .. } = aim else {
        return Ok(Vec::new(alloc));
    };
    let mut member = Vec::new(alloc);
    member.push(f.copy(alloc)?)?;
    Ok(member)
}
