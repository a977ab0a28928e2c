// Polynomials of a problem's lines.
ghost use Rattle.fm_problem.specs.Problems.{polynomial_in};
ghost use Rattle.fm_text.specs.Views.{FitsRules, rules_view};
ghost use Rattle.fm_words.specs.Steps.{Gives};

use crate::FaultKind;
use fm_poly::Poly;
use fm_text::{Rules, read_polynomial};
use fm_words::ReadError;
use std::alloc::Global;

/// The polynomial that a text spells, or the fault of its line.
pub fn polynomial_of_line(
    alloc: Global,
    rules: &Rules<'_>,
    text: &[u8],
) -> Result<Poly, ReadError<FaultKind>>
    requires { FitsRules rules.now }
    ensures { Gives (λ f. f) result (polynomial_in (rules_view rules.now) text.now) }
{
    match read_polynomial(alloc, rules, text) {
        Ok(f) => Ok(f),
        Err(ReadError::Fault(fault)) => Err(ReadError::Fault(FaultKind::from(fault))),
        Err(ReadError::Memory) => Err(ReadError::Memory),
    }
}
