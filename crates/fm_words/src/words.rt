// Words of a text.
ghost use Rattle.std.specs.Prelude.{◌≡◌, ◌<◌, [], ◌∷◌, IfSome, MatchOption, length, option_map};
ghost use Rattle.fm_words.specs.Parts.{only, pair, triple};
ghost use Rattle.fm_words.specs.Words.{after_word, is_blank as is_blank_text, words};

use crate::{Mark, first_part};

/// The first word, and the text after it.
pub fn next_word(text: &[u8]) -> Option<(&[u8], &[u8])>
    ensures words { MatchOption result (words text.entry.now ≡ []) (λ f. words text.entry.now ≡ f.0.now ∷ words f.1.now) }
    ensures after { MatchOption result (after_word text.entry.now ≡ []) (λ f. after_word text.entry.now ≡ f.1.now) }
    ensures shorter { IfSome result (λ f. length f.1.now < length text.entry.now) }
{
    let mut from = text;
    'blanks: loop {
        let Some((byte, rest)) = from.split_first() else {
            return None;
        };
        if !Mark::Blank.is(*byte) {
            break;
        }
        from = rest;
    }
    let (word, more) = first_part(from, Mark::Blank);
    match more {
        Some(rest) => Some((word, rest)),
        None => Some((word, &from[from.len()..])),
    }
}

/// Whether the text is blanks alone.
pub fn is_blank(text: &[u8]) -> bool
    ensures { result ≡ is_blank_text text.now }
{
    next_word(text).is_none()
}

/// The word of a text that has exactly one.
pub fn one_word(text: &[u8]) -> Option<&[u8]>
    ensures { option_map (λ w. w.now) result ≡ only (words text.entry.now) }
{
    let (word, rest) = next_word(text)?;
    if is_blank(rest) { Some(word) } else { None }
}

/// The words of a text that has exactly two.
pub fn two_words(text: &[u8]) -> Option<(&[u8], &[u8])>
    ensures { option_map (λ f. (f.0.now, f.1.now)) result ≡ pair (words text.entry.now) }
{
    let (first, rest) = next_word(text)?;
    let second = one_word(rest)?;
    Some((first, second))
}

/// The words of a text that has exactly three.
pub fn three_words(text: &[u8]) -> Option<(&[u8], &[u8], &[u8])>
    ensures { option_map (λ f. (f.0.now, f.1.now, f.2.now)) result ≡ triple (words text.entry.now) }
{
    let (first, rest) = next_word(text)?;
    let (second, third) = two_words(rest)?;
    Some((first, second, third))
}
