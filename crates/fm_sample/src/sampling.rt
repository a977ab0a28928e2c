// Samples.
ghost use Rattle.std.specs.Prelude.{◌≡◌, IfOk};
ghost use Rattle.fm_problem.specs.Sound.{HasSmallExponents, IsProblem};
ghost use Rattle.fm_sample.specs.Samples.{sample_problem, variables as variable_names};

use crate::ideals::draw_ideals;
use crate::monomials::RING;
use crate::queries::queries;
use fm_problem::{Names, Problem};
use std::alloc::{AllocError, Global};

/// The problem that is drawn from a number.
pub fn sample(alloc: Global, number: u32) -> Result<Problem, AllocError>
    ensures drawn { IfOk result (λ q. q ≡ sample_problem number) }
    ensures sound { IfOk result IsProblem }
    ensures small { IfOk result HasSmallExponents }
{
    Ok(Problem {
        ring: RING,
        vars: variables(alloc)?,
        ideals: draw_ideals(alloc, number)?,
        queries: queries(alloc)?,
    })
}

fn variables(alloc: Global) -> Result<Names, AllocError>
    ensures { IfOk result (λ names. names ≡ variable_names) }
{
    let mut names = Names::new(alloc);
    names.push(String::from_str(alloc, "x")?)?;
    names.push(String::from_str(alloc, "y")?)?;
    names.push(String::from_str(alloc, "z")?)?;
    names.push(String::from_str(alloc, "w")?)?;
    Ok(names)
}
