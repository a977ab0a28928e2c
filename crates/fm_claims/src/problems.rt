// Ideals of a problem.
ghost use Rattle.std.specs.Prelude.{IfOk, OnOk, length, ◌++◌, ◌<◌, ◌≡◌};
ghost use Rattle.fm_places.specs.Meanings.{ideal_at};

use fm_poly::Poly;
use fm_problem::Problem;
use std::alloc::{AllocError, Global};

/// The generators of an ideal, which is named by its number from 0.
pub(crate) fn generators(problem: &Problem, ideal: u32) -> &[Poly]
    requires { ideal < length problem.now.ideals }
    ensures { result.now ≡ (ideal_at problem.entry.now ideal).generators }
{
    problem.ideals.as_slice()[ideal as usize]
        .generators
        .as_slice()
}

// Appends copies of the polynomials.
fn push_copies(alloc: Global, polynomials: &[Poly], out: &mut Vec<Poly>) -> Result<(), AllocError>
    ensures { OnOk result (out.new.items ≡ out.old.items ++ polynomials.now) }
{
    let mut left = polynomials;
    'polynomials: loop {
        let Some((f, later)) = left.split_first() else {
            return Ok(());
        };
        out.push(f.copy(alloc)?)?;
        left = later;
    }
}

/// Copies of the polynomials.
pub(crate) fn copies(alloc: Global, polynomials: &[Poly]) -> Result<Vec<Poly>, AllocError>
    ensures { IfOk result (λ v. v.items ≡ polynomials.now) }
{
    let mut out = Vec::with_capacity(alloc, polynomials.len())?;
    push_copies(alloc, polynomials, &mut out)?;
    Ok(out)
}
