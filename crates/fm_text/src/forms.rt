// The form of polynomials.
ghost use Rattle.std.specs.Prelude.{◌≡◌};
ghost use Rattle.fm_text.specs.Factors.{are_polynomials as are_polynomials_of, is_polynomial as is_polynomial_of, is_term as is_term_of};

use crate::factors::read_factor;
use crate::terms::{all_terms, first_term};
use fm_words::{Mark, first_part};

fn is_term(text: &[u8]) -> bool
    ensures { result ≡ is_term_of text.now }
{
    let mut from = text;
    'factors: loop {
        let (part, more) = first_part(from, Mark::Star);
        if read_factor(part).is_none() {
            return false;
        }
        let Some(rest) = more else {
            return true;
        };
        from = rest;
    }
}

/// Whether the text is terms joined by signs.
pub fn is_polynomial(text: &[u8]) -> bool
    ensures { result ≡ is_polynomial_of text.now }
{
    let mut from = all_terms(text);
    'terms: loop {
        let (part, more) = first_term(from);
        if !is_term(part) {
            return false;
        }
        let Some(rest) = more else {
            return true;
        };
        from = rest;
    }
}

/// Whether the text is one or more polynomials joined by commas.
pub fn are_polynomials(text: &[u8]) -> bool
    ensures { result ≡ are_polynomials_of text.now }
{
    let mut from = text;
    'polynomials: loop {
        let (part, more) = first_part(from, Mark::Comma);
        if !is_polynomial(part) {
            return false;
        }
        let Some(rest) = more else {
            return true;
        };
        from = rest;
    }
}
