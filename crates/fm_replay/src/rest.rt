// What becomes of the rest of a reduction.
ghost use Rattle.std.specs.Prelude.{IfOk};
ghost use Rattle.fm_replay.specs.Kept.{IsNextMember, RestIs};

use crate::{Fault, Refusal};
use fm_vec::Vector;
use std::alloc::Global;

/// A rest that isn't zero, made monic, is the next member; one that is zero has to be told to be so.
pub(crate) fn rest_kept(alloc: Global, keep: bool, rest: Vector) -> Result<Option<Vector>, Refusal>
    ensures rest { RestIs rest.ring keep rest.terms result }
    ensures next { IfOk result (IsNextMember rest.ring rest.rows) }
{
    let Some(_head) = rest.head() else {
        if keep {
            return Err(Refusal::Bad(Fault::Step));
        }
        return Ok(None);
    };
    if !keep {
        return Err(Refusal::Bad(Fault::Step));
    }
    let member = rest.monic(alloc)?;
    Ok(Some(member))
}
