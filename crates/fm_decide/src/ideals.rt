// The ideals of a problem by their numbers.
ghost use Rattle.std.specs.Prelude.{Some, length, slice_get, ◌+◌, ◌<◌, ◌^◌, ◌≡◌};
ghost use Rattle.fm_answers.specs.Answers.{generators_at};
ghost use Rattle.fm_cert.specs.Questions.{name_at};
ghost use Rattle.fm_problem.specs.Sound.{IsIdealOf, IsProblem};
ghost use Rattle.fm_vec.specs.Components.{AreOver};

use fm_poly::Poly;
use fm_problem::Problem;

/// The generators of the ideal with this number.
pub(crate) fn generators(problem: &Problem, ideal: u32) -> &[Poly]
    requires problem { IsProblem problem.now }
    requires ideal { ideal < length problem.now.ideals }
    ensures same { result.now ≡ generators_at problem.entry.now ideal }
    ensures over { AreOver problem.entry.now.ring result.now }
    ensures few { length result.now + 1 < 2 ^ 32 }
{
    problem.ideals.as_slice()[ideal as usize]
        .generators
        .as_slice()
}
