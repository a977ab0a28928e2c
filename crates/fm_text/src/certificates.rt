// Polynomials of certificates.
ghost use Rattle.std.specs.Prelude.{◌≡◌, ◌≤◌, length, map, string_bytes};
ghost use Rattle.fm_text.specs.Certificates.{certificate_polynomial, has_blank as has_blank_byte, is_sound as is_sound_text, is_sound_factor as is_sound_factor_text, is_sound_term as is_sound_term_text};
ghost use Rattle.fm_text.specs.Factors.{factor_of};
ghost use Rattle.fm_text.specs.Readings.{ReadsPolynomial};

use crate::PolyFault;
use crate::factors::{FactorText, read_factor};
use crate::places::variable_place;
use crate::polynomials::{sum_of, written_terms};
use crate::rules::Rules;
use crate::terms::{all_terms, first_term};
use fm_mono::EXPONENT_BOUND;
use fm_poly::{Poly, Ring};
use fm_words::{Mark, ReadError, first_part, number};
use std::alloc::Global;

fn has_blank(text: &[u8]) -> bool
    ensures { result ≡ has_blank_byte text.now }
{
    let mut from = text;
    'bytes: loop {
        let Some((byte, rest)) = from.split_first() else {
            return false;
        };
        if Mark::Blank.is(*byte) {
            return true;
        }
        from = rest;
    }
}

fn is_sound_factor(names: &[String], text: &[u8]) -> bool
    ensures { result ≡ is_sound_factor_text (map string_bytes names.now) (factor_of text.now) }
{
    match read_factor(text) {
        None => false,
        Some(FactorText::Number(digits)) => number(digits).is_some(),
        Some(FactorText::Variable(name)) => variable_place(names, name).is_some(),
        Some(FactorText::Power(name, _)) => variable_place(names, name).is_some(),
    }
}

fn is_sound_term(names: &[String], text: &[u8]) -> bool
    ensures { result ≡ is_sound_term_text (map string_bytes names.now) text.now }
{
    let mut from = text;
    'factors: loop {
        let (part, more) = first_part(from, Mark::Star);
        if !is_sound_factor(names, part) {
            return false;
        }
        let Some(rest) = more else {
            return true;
        };
        from = rest;
    }
}

fn is_sound(names: &[String], text: &[u8]) -> bool
    ensures { result ≡ is_sound_text (map string_bytes names.now) text.now }
{
    if has_blank(text) {
        return false;
    }
    let mut from = all_terms(text);
    'terms: loop {
        let (part, more) = first_term(from);
        if !is_sound_term(names, part) {
            return false;
        }
        let Some(rest) = more else {
            return true;
        };
        from = rest;
    }
}

/// The polynomial that a text of a certificate spells: its form, its names and its coefficients are judged before its
/// exponents.
#[tactic(auto, unfolding(crate::specs::Certificates::certificate_polynomial))]
pub fn read_poly(
    alloc: Global,
    ring: Ring,
    names: &[String],
    text: &[u8],
) -> Result<Poly, PolyFault>
    requires named { length names.now ≡ ring.vars }
    requires some { 1 ≤ ring.vars }
    requires few { ring.vars ≤ 8 }
    ensures { ReadsPolynomial (certificate_polynomial ring (map string_bytes names.now) text.now) result }
{
    if !is_sound(names, text) {
        return Err(PolyFault::Form);
    }
    let rules = Rules {
        ring,
        names,
        bound: EXPONENT_BOUND,
    };
    let terms = match written_terms(alloc, &rules, text) {
        Ok(terms) => terms,
        Err(ReadError::Fault(_)) => return Err(PolyFault::Exponent),
        Err(ReadError::Memory) => return Err(PolyFault::Memory),
    };
    match sum_of(alloc, ring, &terms) {
        Ok(sum) => Ok(sum),
        Err(_) => Err(PolyFault::Memory),
    }
}
