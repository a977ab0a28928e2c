// Ideals of a problem text.
ghost use Rattle.std.specs.Prelude.{◌≡◌, OnErr, OnOk, true};
ghost use Rattle.fm_words.specs.Parts.{parts};
ghost use Rattle.fm_words.specs.Words.{is_name};
ghost use Rattle.fm_words.specs.declared.mark.Mark.TheVariants.{Comma};
ghost use Rattle.fm_problem.specs.Problems.{IsBounded, generators_in, rules_of as rules_of_problem, unless_zero, with_ideal};
ghost use Rattle.fm_text.specs.Views.{FitsRules, rules_view};
ghost use Rattle.fm_words.specs.Steps.{Gives};

use crate::limits::{GENERATORS, IDEALS, NAME_BYTES, WRITTEN_EXPONENT};
use crate::names::name_of;
use crate::places::ideal_place;
use crate::polynomials::polynomial_of_line;
use crate::{FaultKind, Ideal, Name, Problem};
use fm_poly::Poly;
use fm_text::Rules;
use fm_words::{Mark, ReadError, first_part};
use sqlite_items::Items;
use std::alloc::{AllocError, Global};

/// What the polynomials of a problem's lines are read by.
pub fn rules_of(problem: &Problem) -> Rules<'_>
    requires { IsBounded problem.now }
    ensures rules { rules_view result ≡ rules_of_problem problem.entry.now }
    ensures fits { FitsRules result }
{
    Rules {
        ring: problem.ring,
        names: problem.vars.as_slice(),
        bound: WRITTEN_EXPONENT,
    }
}

// Appends a polynomial that isn't zero.
fn keep(kept: &mut Items<Poly>, f: Poly) -> Result<(), AllocError>
    ensures { OnOk result (kept.new ≡ unless_zero kept.old f) }
{
    if f.terms().split_first().is_none() {
        return Ok(());
    }
    kept.push(f)?;
    Ok(())
}

fn read_generators(
    alloc: Global,
    rules: &Rules<'_>,
    text: &[u8],
) -> Result<Items<Poly>, ReadError<FaultKind>>
    requires { FitsRules rules.now }
    ensures { Gives (λ v. v) result (generators_in (rules_view rules.now) (parts Comma text.now)) }
{
    let mut kept = Items::new(alloc);
    let mut written = 0usize;
    let mut from = text;
    'generators: loop {
        let (part, more) = first_part(from, Mark::Comma);
        if written >= GENERATORS {
            return Err(ReadError::Fault(FaultKind::Limit));
        }
        let f = polynomial_of_line(alloc, rules, part)?;
        keep(&mut kept, f)?;
        let Some(rest) = more else {
            return Ok(kept);
        };
        written += 1;
        from = rest;
    }
}

/// Appends the ideal of an ideal line.
pub fn add_ideal(
    alloc: Global,
    problem: &mut Problem,
    name: &[u8],
    generators: &[u8],
) -> Result<(), ReadError<FaultKind>>
    requires bounded { IsBounded problem.old }
    requires name { is_name name.now ≡ true }
    ensures gives { Gives (λ _. problem.new) result (with_ideal problem.old name.now (parts Comma generators.now)) }
    ensures bounded { OnOk result (IsBounded problem.new) }
    ensures unchanged { OnErr result (problem.new ≡ problem.old) }
{
    if problem.ideals.len() >= IDEALS {
        return Err(ReadError::Fault(FaultKind::Limit));
    }
    if ideal_place(problem.ideals.as_slice(), name).is_some() {
        return Err(ReadError::Fault(FaultKind::Repeated));
    }
    if name.len() > NAME_BYTES {
        return Err(ReadError::Fault(FaultKind::Limit));
    }
    let kept = read_generators(alloc, &rules_of(problem), generators)?;
    let text = name_of(alloc, name)?;
    let ideal = Ideal {
        name: Name::from_string(text),
        generators: kept,
    };
    problem.ideals.push(ideal)?;
    Ok(())
}
