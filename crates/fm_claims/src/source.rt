// What was named on the side of the source of a map.
ghost use Rattle.std.specs.Prelude.{IfSome, List, option_map, suc, true, ◌≡◌};
ghost use Rattle.fm_problem.specs.declared.problem.Problem.{Problem as ProblemValue};
ghost use Rattle.fm_report.specs.Parts.{Part};
ghost use Rattle.fm_report.specs.Sheets.{numbered};
ghost use Rattle.fm_parts.specs.Replays.{is_number};
ghost use Rattle.fm_judge.specs.Claims as claims;
ghost use Rattle.fm_pres.specs.Tables.{part_at};
ghost use Rattle.fm_places.specs.Meanings.{IsAim, aim_of};

use crate::numbers::nth;
use fm_places::Aim;

/// d_(i+1) of the source.
pub(crate) fn source_differential(aim: &Aim, i: u64) -> Option<u32>
    ensures part { (q : ProblemValue) (ps : List Part)
        → numbered (claims.source_of (aim_of q ps aim.now)).block.differentials (suc i) ≡ option_map (part_at ps) result }
    ensures there { (q : ProblemValue) (ps : List Part) → IsAim q ps aim.now → IfSome result (λ k. is_number ps k ≡ true) }
{
    let Aim::Incoming { source, .. } = aim else {
        return None;
    };
    nth(&source.block.differentials, i)
}

/// Z of the source.
pub(crate) fn source_cocycles(aim: &Aim) -> Option<u32>
    ensures part { (q : ProblemValue) (ps : List Part)
        → numbered (claims.source_of (aim_of q ps aim.now)).block.cocycles 1 ≡ option_map (part_at ps) result }
    ensures there { (q : ProblemValue) (ps : List Part) → IsAim q ps aim.now → IfSome result (λ k. is_number ps k ≡ true) }
{
    let Aim::Incoming { source, .. } = aim else {
        return None;
    };
    nth(&source.block.cocycles, 0)
}

/// The stable kernel of the source.
pub(crate) fn source_kernel(aim: &Aim) -> Option<u32>
    ensures part { (q : ProblemValue) (ps : List Part) → let source = claims.source_of (aim_of q ps aim.now) in
        numbered source.block.kernels (suc source.repeat) ≡ option_map (part_at ps) result }
    ensures there { (q : ProblemValue) (ps : List Part) → IsAim q ps aim.now → IfSome result (λ k. is_number ps k ≡ true) }
{
    let Aim::Incoming { source, .. } = aim else {
        return None;
    };
    nth(&source.block.kernels, source.repeat)
}
