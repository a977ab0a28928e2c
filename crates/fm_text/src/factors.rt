// Factors of terms.
ghost use Rattle.std.specs.Prelude.{◌≡◌, option_map};
ghost use Rattle.fm_text.specs.Factors.{factor_of, power_factor as power_factor_of, simple_factor as simple_factor_of};
ghost use Rattle.fm_text.specs.Views.{factor_view};

use fm_words::{Mark, first_part, is_name, is_number, one_word};

/// A factor, by its words.
#[derive(Clone, Copy)]
pub enum FactorText<'a> {
    /// The digits of a number.
    Number(&'a [u8]),
    /// The name of a variable.
    Variable(&'a [u8]),
    /// The name of a variable, and the digits of its exponent.
    Power(&'a [u8], &'a [u8]),
}

fn simple_factor(word: &[u8]) -> Option<FactorText<'_>>
    ensures { option_map factor_view result ≡ simple_factor_of word.entry.now }
{
    if is_number(word) {
        return Some(FactorText::Number(word));
    }
    if is_name(word) {
        return Some(FactorText::Variable(word));
    }
    None
}

fn power_factor<'a>(name: &'a [u8], exponent: &'a [u8]) -> Option<FactorText<'a>>
    ensures { option_map factor_view result ≡ power_factor_of name.entry.now exponent.entry.now }
{
    if !is_name(name) {
        return None;
    }
    if !is_number(exponent) {
        return None;
    }
    Some(FactorText::Power(name, exponent))
}

/// The factor that a text spells.
pub fn read_factor(text: &[u8]) -> Option<FactorText<'_>>
    ensures { option_map factor_view result ≡ factor_of text.entry.now }
{
    let (base, more) = first_part(text, Mark::Caret);
    let first = one_word(base)?;
    let Some(rest) = more else {
        return simple_factor(first);
    };
    let (exponent, third) = first_part(rest, Mark::Caret);
    let second = one_word(exponent)?;
    match third {
        Some(_later) => None,
        None => power_factor(first, second),
    }
}
