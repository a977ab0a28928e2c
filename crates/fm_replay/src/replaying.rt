// Whole logs.
ghost use Rattle.std.specs.Prelude.{IfOk, length, map, ◌<◌, ◌^◌, ◌≡◌};
ghost use Rattle.fm_complete.specs.Bases.{entry_value};
ghost use Rattle.fm_complete.specs.Divisions.{terms_of};
ghost use Rattle.fm_complete.specs.Standing.{AreOfShape};
ghost use Rattle.fm_parts.specs.Replays.{BadEntry};
ghost use Rattle.fm_replay.specs.Endings.{Ends, EndsFrom, is_exponents};
ghost use Rattle.fm_replay.specs.Refusals.{reason_of};

use crate::{Fault, Refusal, Replay};
use fm_complete::Entry;
use fm_poly::Ring;
use fm_vec::Vector;
use std::alloc::{AllocError, Global};

/// What came of a log: its members, where it is whole; that it isn't; or that the entry behind the first `before` ones is no free step, and whether
/// an exponent would pass the bound there.
#[derive(Drop)]
pub enum Replayed {
    Members(Vec<Vector>),
    Unfinished,
    Bad { before: usize, exponents: bool },
}

/// Replays a log for these inputs, vectors over the ring with this number of components.
pub fn replay_log(
    alloc: Global,
    ring: Ring,
    rows: u32,
    inputs: &[Vector],
    log: &[Entry],
) -> Result<Replayed, AllocError>
    requires inputs { AreOfShape ring rows inputs.now }
    requires few { length inputs.now < 2 ^ 32 }
    ensures { IfOk result (Ends ring (terms_of inputs.now) (map entry_value log.now)) }
{
    let mut replay = Replay::new(alloc, ring, rows);
    let mut left = log;
    'entries: loop {
        let Some((entry, later)) = left.split_first() else {
            return Ok(ended(replay, inputs));
        };
        match replay.enter(alloc, inputs, entry) {
            Ok(()) => {}
            Err(Refusal::Memory) => return Err(AllocError),
            Err(Refusal::Bad(fault)) => {
                return Ok(Replayed::Bad {
                    before: log.len() - left.len(),
                    exponents: passes_bound(fault),
                });
            }
        }
        left = later;
    }
}

/// What came of a log all of whose entries are free steps.
fn ended(replay: Replay, inputs: &[Vector]) -> Replayed
    requires few { length inputs.now < 2 ^ 32 }
    ensures { EndsFrom replay (terms_of inputs.now) result }
{
    if replay.is_whole(inputs) {
        Replayed::Members(replay.into_members())
    } else {
        Replayed::Unfinished
    }
}

fn passes_bound(fault: Fault) -> bool
    ensures { result ≡ is_exponents (reason_of BadEntry fault) }
{
    match fault {
        Fault::Exponents => true,
        Fault::Reference | Fault::Step => false,
    }
}
