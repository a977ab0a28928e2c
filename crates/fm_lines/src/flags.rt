// Fields of one of two words.
ghost use Rattle.std.specs.Prelude.{◌≡◌, option_map};
ghost use Rattle.fm_cert.specs.Fields.{first_word, keep_or_zero_of, read_yes_with, yes_or_no};
ghost use Rattle.fm_lines.specs.Ends.{last_yes_no as last_yes_no_row, last_yes_with as last_yes_with_row, yes_said, yes_with_said};
ghost use Rattle.fm_lines.specs.Left.{left};
ghost use Rattle.fm_lines.specs.Plain.{plain_row};

use crate::numbers::number;
use crate::words::{Words, first_of, is_end};

/// Whether the first word is `yes` and not `no`, and the words after it.
pub(crate) fn yes_no(words: Words<'_>) -> Option<(bool, Words<'_>)>
    ensures { option_map (λ f. (f.0, left f.1)) result ≡ first_word yes_or_no (left words.entry) }
{
    let (word, rest) = first_of(words)?;
    if word == b"yes".as_slice() {
        return Some((true, rest));
    }
    if word == b"no".as_slice() {
        return Some((false, rest));
    }
    None
}

/// Whether the first word is `keep` and not `zero`, and the words after it.
pub(crate) fn keep_or_zero(words: Words<'_>) -> Option<(bool, Words<'_>)>
    ensures { option_map (λ f. (f.0, left f.1)) result ≡ first_word keep_or_zero_of (left words.entry) }
{
    let (word, rest) = first_of(words)?;
    if word == b"keep".as_slice() {
        return Some((true, rest));
    }
    if word == b"zero".as_slice() {
        return Some((false, rest));
    }
    None
}

/// None for `no`, and the number after `yes` and this word; and the words after it.
pub(crate) fn yes_with<'a>(word: &[u8], words: Words<'a>) -> Option<(Option<u64>, Words<'a>)>
    ensures { option_map (λ f. (f.0, left f.1)) result ≡ read_yes_with word.now (left words.entry) }
{
    let (answer, rest) = first_of(words)?;
    if answer == b"no".as_slice() {
        return Some((None, rest));
    }
    if answer != b"yes".as_slice() {
        return None;
    }
    let (with, rest) = first_of(rest)?;
    let (found, rest) = number(rest)?;
    if with != word {
        return None;
    }
    Some((Some(found), rest))
}

/// Whether `yes` and not `no` is all that is left.
pub(crate) fn last_yes_no(words: Words<'_>) -> Option<bool>
    ensures { option_map yes_said result ≡ plain_row last_yes_no_row (left words.entry) }
{
    let (yes, rest) = yes_no(words)?;
    if is_end(rest) { Some(yes) } else { None }
}

/// None for `no`, and the number after `yes` and this word; this is all that is left.
pub(crate) fn last_yes_with(word: &[u8], words: Words<'_>) -> Option<Option<u64>>
    ensures { option_map (yes_with_said word.now) result ≡ plain_row (last_yes_with_row word.now) (left words.entry) }
{
    let (found, rest) = yes_with(word, words)?;
    if is_end(rest) { Some(found) } else { None }
}
