// The blocks of certificates: `datum`, and the lines on the ideal that it names.
ghost use Rattle.std.specs.Prelude.{OnOk, [], length, ◌∷◌, ◌<◌, ◌≡◌};
ghost use Rattle.fm_answers.specs.Answers.{datum_line};
ghost use Rattle.fm_certificates.specs.Certificates.{base_block};
ghost use Rattle.fm_certify.specs.Claims.{HasClaims};
ghost use Rattle.fm_ext.specs.Exts.{ring_of};
ghost use Rattle.fm_problem.specs.Sound.{IsProblem};
ghost use Rattle.fm_queries.specs.Bases.{base_meaning};
ghost use Rattle.fm_standard.specs.Writing.{plain_claim};

use crate::bases::push_base;
use fm_problem::Problem;
use fm_queries::Base;
use fm_writer::Claim;
use std::alloc::AllocError;

/// `datum NAME DEGREE` for the ideal with this number.
pub(crate) fn push_datum<'a>(
    problem: &'a Problem,
    ideal: u32,
    degree: u8,
    claims: &mut Vec<Claim<'a>>,
) -> Result<(), AllocError>
    requires problem { IsProblem problem.now }
    requires ideal { ideal < length problem.now.ideals }
    ensures { OnOk result (HasClaims problem.now.ring.vars claims.old.items
        (plain_claim (datum_line problem.now ideal degree) ∷ []) claims.new.items) }
{
    let name = &problem.ideals.as_slice()[ideal as usize].name;
    claims.push(Claim::Datum {
        name: name.as_str().as_bytes(),
        degree,
    })?;
    Ok(())
}

/// The block of Ext and its chain of kernels.
pub(crate) fn push_base_block<'a>(
    problem: &'a Problem,
    ideal: u32,
    degree: u8,
    base: &'a Base,
    claims: &mut Vec<Claim<'a>>,
) -> Result<(), AllocError>
    requires problem { IsProblem problem.now }
    requires ideal { ideal < length problem.now.ideals }
    requires ring { ring_of base.now.ext ≡ problem.now.ring }
    requires degree { length base.now.ext.resolution.next ≡ degree }
    ensures { let r = problem.now.ring in OnOk result (HasClaims r.vars claims.old.items
        (base_block problem.now ideal degree (base_meaning r base.now)) claims.new.items) }
{
    push_datum(problem, ideal, degree, claims)?;
    push_base(base, degree, claims)
}
