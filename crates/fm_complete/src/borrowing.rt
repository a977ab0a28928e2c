// The completion of all vectors of a list.
ghost use Rattle.std.specs.Prelude.{IfOk, length, ◌<◌, ◌^◌, ◌≡◌};
ghost use Rattle.fm_complete.specs.Bases.{basis_value};
ghost use Rattle.fm_complete.specs.Completions.{completed};
ghost use Rattle.fm_complete.specs.Divisions.{AreMembers, terms_of};
ghost use Rattle.fm_complete.specs.Standing.{AreOfShape, values};
ghost use Rattle.fm_run.specs.Runs.{Follows};

use crate::{Basis, complete};
use fm_poly::Ring;
use fm_run::{Stop, Work};
use fm_vec::Vector;
use std::alloc::{AllocError, Global};

/// Completes the vectors as `complete` does.
pub fn complete_all(
    alloc: Global,
    ring: Ring,
    rows: u32,
    inputs: &[Vector],
    work: &mut Work,
) -> Result<Basis, Stop>
    requires inputs { AreOfShape ring rows inputs.now }
    requires few { length inputs.now < 2 ^ 32 }
    ensures follows { Follows basis_value result work.old work.new (completed ring (terms_of inputs.now) work.old) }
    ensures members { IfOk result (λ b. AreMembers ring rows b.members.items) }
    ensures few { IfOk result (λ b. length b.members.items < 2 ^ 32) }
{
    let all = borrowed(alloc, inputs)?;
    complete(alloc, ring, rows, &all, work)
}

/// The vectors, borrowed one by one.
pub fn borrowed<'a>(alloc: Global, vectors: &'a [Vector]) -> Result<Vec<&'a Vector>, AllocError>
    ensures values { IfOk result (λ out. values out.items ≡ vectors.entry.now) }
    ensures count { IfOk result (λ out. length out.items ≡ length vectors.entry.now) }
{
    let mut out = Vec::with_capacity(alloc, vectors.len())?;
    let mut left = vectors;
    'vectors: loop {
        let Some((v, later)) = left.split_first() else {
            return Ok(out);
        };
        out.push(v)?;
        left = later;
    }
}
