// Numbers in lines.
ghost use Rattle.std.specs.Prelude.{◌≡◌, option_map};
ghost use Rattle.fm_cert.specs.Fields.{exact_number as exact_number_of, first_word};
ghost use Rattle.fm_lines.specs.Left.{left};
ghost use Rattle.fm_lines.specs.Plain.{plain_row};
ghost use Rattle.fm_lines.specs.Shapes.{five_numbers, four_numbers, generated_said, one_and_generated_said, two_and_generated_said, one_number as one_number_row, one_said, three_numbers, two_numbers as two_numbers_row, two_said};

use crate::Generated;
use crate::words::{Words, first_of, is_end};
use fm_words::{is_exact, is_number, number as number_of};

/// The number that a word is, in decimal digits without leading zeros.
#[tactic(auto, unfolding(fm_cert::specs::Fields::exact_number))]
pub(crate) fn exact_number(word: &[u8]) -> Option<u64>
    ensures { result ≡ exact_number_of word.now }
{
    if !is_number(word) {
        return None;
    }
    if !is_exact(word) {
        return None;
    }
    number_of(word)
}

/// A number, and the words after it.
pub(crate) fn number(words: Words<'_>) -> Option<(u64, Words<'_>)>
    ensures { option_map (λ f. (f.0, left f.1)) result ≡ first_word exact_number_of (left words.entry) }
{
    let (word, rest) = first_of(words)?;
    let found = exact_number(word)?;
    Some((found, rest))
}

/// The number that is all that is left.
pub(crate) fn one_number(words: Words<'_>) -> Option<u64>
    ensures { option_map one_said result ≡ plain_row one_number_row (left words.entry) }
{
    let (found, rest) = number(words)?;
    if !is_end(rest) {
        return None;
    }
    Some(found)
}

/// The two numbers that are left.
pub(crate) fn two_numbers(words: Words<'_>) -> Option<(u64, u64)>
    ensures { option_map two_said result ≡ plain_row two_numbers_row (left words.entry) }
{
    let (first, rest) = number(words)?;
    let second = one_number(rest)?;
    Some((first, second))
}

/// The numbers by which generators are shown, which are all that is left.
pub(crate) fn generated(words: Words<'_>) -> Option<Generated>
    ensures { option_map generated_said result ≡ plain_row three_numbers (left words.entry) }
{
    let (log, rest) = number(words)?;
    let (x, w) = two_numbers(rest)?;
    Some(Generated { log, x, w })
}

/// A number, and the numbers by which generators are shown; this is all that is left.
pub(crate) fn one_and_generated(words: Words<'_>) -> Option<(u64, Generated)>
    ensures { option_map one_and_generated_said result ≡ plain_row four_numbers (left words.entry) }
{
    let (first, rest) = number(words)?;
    let shown = generated(rest)?;
    Some((first, shown))
}

/// Two numbers, and the numbers by which generators are shown; this is all that is left.
pub(crate) fn two_and_generated(words: Words<'_>) -> Option<(u64, u64, Generated)>
    ensures { option_map two_and_generated_said result ≡ plain_row five_numbers (left words.entry) }
{
    let (first, rest) = number(words)?;
    let (second, shown) = one_and_generated(rest)?;
    Some((first, second, shown))
}
