// What polynomials spell.
ghost use Rattle.std.specs.Prelude.{◌≡◌, ◌<◌, ◌≤◌, All, IfOk, length, map, replicate, string_bytes};
ghost use Rattle.fm_gfp.specs.Primes.{prime_value};
ghost use Rattle.fm_mono.specs.Bounded.{exponent_bound};
ghost use Rattle.fm_poly.specs.Polys.{IsTermOf};
ghost use Rattle.fm_text.specs.Factors.{factor_of};
ghost use Rattle.fm_text.specs.Polynomials.{spelled_polynomial, raised, signed_coefficient, signed_term, times_factor as times_factor_of, times_factors as times_factors_of, unsigned_term as unsigned_term_of, written_terms as written_terms_of};
ghost use Rattle.fm_words.specs.Steps.{Gives, Is, place};
ghost use Rattle.fm_text.specs.SumOfTerms.{polynomial_of_terms};
ghost use Rattle.fm_text.specs.Views.{FitsRules, rules_view};
ghost use Rattle.fm_words.specs.Words.{value};

use crate::TextFault;
use crate::factors::{FactorText, read_factor};
use crate::places::variable_place;
use crate::rules::Rules;
use crate::sign::Sign;
use crate::terms::{all_terms, first_term};
use fm_gfp::Gf;
use fm_mono::Mono;
use fm_poly::{Poly, Ring, Term};
use fm_words::{Mark, ReadError, first_part, number};
use std::alloc::{AllocError, Global};

// Adds to the exponent of a variable.
fn raise(
    rules: &Rules<'_>,
    name: &[u8],
    digits: &[u8],
    exponents: &mut [u32],
) -> Result<(), TextFault>
    requires fits { length exponents.old ≡ length rules.now.names.now }
    requires bounded { rules.now.bound ≤ exponent_bound }
    ensures { Is (λ _. exponents.new) result (raised rules.now.bound exponents.old (value digits.now) (place 0 name.now (map string_bytes rules.now.names.now))) }
{
    let Some(k) = variable_place(rules.names, name) else {
        return Err(TextFault::UnknownName);
    };
    let Some(by) = number(digits) else {
        return Err(TextFault::Limit);
    };
    let Some(sum) = by.checked_add(u64::from(exponents[k])) else {
        return Err(TextFault::Limit);
    };
    if sum > u64::from(rules.bound) {
        return Err(TextFault::Limit);
    }
    exponents[k] = sum as u32;
    Ok(())
}

// Multiplies a term by a factor: its coefficient is given back, and its exponents are changed in place.
fn times_factor(
    rules: &Rules<'_>,
    text: &[u8],
    coeff: Gf,
    exponents: &mut [u32],
) -> Result<Gf, TextFault>
    requires fits { length exponents.old ≡ length rules.now.names.now }
    requires bounded { rules.now.bound ≤ exponent_bound }
    requires below { coeff < prime_value rules.now.ring.prime }
    ensures gives { Is (λ c. record { mono = exponents.new; coeff = c }) result
        (times_factor_of (rules_view rules.now) (record { mono = exponents.old; coeff = coeff }) (factor_of text.now)) }
    ensures below { IfOk result (λ c. c < prime_value rules.now.ring.prime) }
{
    let Some(factor) = read_factor(text) else {
        return Err(TextFault::Syntax);
    };
    match factor {
        FactorText::Number(digits) => {
            let Some(n) = number(digits) else {
                return Err(TextFault::Limit);
            };
            Ok(rules.ring.prime.mul(coeff, rules.ring.prime.element(n)))
        }
        FactorText::Variable(name) => {
            raise(rules, name, b"1", exponents)?;
            Ok(coeff)
        }
        FactorText::Power(name, digits) => {
            raise(rules, name, digits, exponents)?;
            Ok(coeff)
        }
    }
}

fn times_factors(
    rules: &Rules<'_>,
    text: &[u8],
    coeff: Gf,
    exponents: &mut [u32],
) -> Result<Gf, TextFault>
    requires fits { length exponents.old ≡ length rules.now.names.now }
    requires bounded { rules.now.bound ≤ exponent_bound }
    requires below { coeff < prime_value rules.now.ring.prime }
    ensures gives { Is (λ c. record { mono = exponents.new; coeff = c }) result
        (times_factors_of (rules_view rules.now) (record { mono = exponents.old; coeff = coeff }) text.now) }
    ensures below { IfOk result (λ c. c < prime_value rules.now.ring.prime) }
{
    let mut product = coeff;
    let mut from = text;
    'factors: loop {
        let (part, more) = first_part(from, Mark::Star);
        product = times_factor(rules, part, product, exponents)?;
        let Some(rest) = more else {
            return Ok(product);
        };
        from = rest;
    }
}

fn with_sign(rules: &Rules<'_>, sign: Sign, coeff: Gf) -> Gf
    requires { coeff < prime_value rules.now.ring.prime }
    ensures exact { result ≡ signed_coefficient rules.now.ring.prime sign coeff }
    ensures below { result < prime_value rules.now.ring.prime }
{
    match sign {
        Sign::Plus => coeff,
        Sign::Minus => rules.ring.prime.neg(coeff),
    }
}

// The product of the factors of a term, whose exponents are zeros to begin with.
#[tactic(auto, using(fm_gfp::proofs::Residues::one_residue))]
fn unsigned_term(rules: &Rules<'_>, text: &[u8], exponents: &mut [u32]) -> Result<Gf, TextFault>
    requires zeros { exponents.old ≡ replicate (length (map string_bytes rules.now.names.now)) 0 }
    requires bounded { rules.now.bound ≤ exponent_bound }
    ensures gives { Is (λ c. record { mono = exponents.new; coeff = c }) result (unsigned_term_of (rules_view rules.now) text.now) }
    ensures below { IfOk result (λ c. c < prime_value rules.now.ring.prime) }
{
    let product = times_factors(rules, text, rules.ring.prime.element(1), exponents)?;
    Ok(product)
}

fn term(rules: &Rules<'_>, sign: Sign, text: &[u8]) -> Result<Term, TextFault>
    requires { FitsRules rules.now }
    ensures gives { Is (λ t. t) result (signed_term (rules_view rules.now) (record { sign = sign; text = text.now })) }
    ensures fits { IfOk result (IsTermOf rules.now.ring) }
{
    let mut exponents = [0; 8];
    let used = &mut exponents[..rules.names.len()];
    let product = unsigned_term(rules, text, used)?;
    let coeff = with_sign(rules, sign, product);
    Ok(Term {
        mono: Mono::of(used),
        coeff,
    })
}

/// The terms of a polynomial, as they are written.
pub fn written_terms(
    alloc: Global,
    rules: &Rules<'_>,
    text: &[u8],
) -> Result<Vec<Term>, ReadError<TextFault>>
    requires { FitsRules rules.now }
    ensures gives { Gives (λ v. v.items) result (written_terms_of (rules_view rules.now) text.now) }
    ensures fit { IfOk result (λ v. All (IsTermOf rules.now.ring) v.items) }
{
    let mut terms = Vec::new(alloc);
    let mut from = all_terms(text);
    'terms: loop {
        let (part, more) = first_term(from);
        let next = term(rules, from.sign, part)?;
        terms.push(next)?;
        let Some(rest) = more else {
            return Ok(terms);
        };
        from = rest;
    }
}

/// The sum of terms.
pub fn sum_of(alloc: Global, ring: Ring, terms: &[Term]) -> Result<Poly, AllocError>
    requires { All (IsTermOf ring) terms.now }
    ensures { IfOk result (λ f. f ≡ polynomial_of_terms ring terms.now) }
{
    let sum = Poly::from_terms(alloc, ring, terms)?;
    let _falling = sum.terms();
    Ok(sum)
}

/// The polynomial that a text spells.
pub fn read_polynomial(
    alloc: Global,
    rules: &Rules<'_>,
    text: &[u8],
) -> Result<Poly, ReadError<TextFault>>
    requires { FitsRules rules.now }
    ensures { Gives (λ f. f) result (spelled_polynomial (rules_view rules.now) text.now) }
{
    let terms = written_terms(alloc, rules, text)?;
    let sum = sum_of(alloc, rules.ring, &terms)?;
    Ok(sum)
}
