// Parts of a text between marks.
ghost use Rattle.std.specs.Prelude.{◌≡◌, ◌<◌, [], ◌∷◌, IfSome, MatchOption, length, option_map};
ghost use Rattle.fm_words.specs.Parts.{after_mark, before_mark, pair, parts};

use crate::Mark;

/// The text before the first mark, and the text after it where there is a mark.
pub fn first_part(text: &[u8], mark: Mark) -> (&[u8], Option<&[u8]>)
    ensures parts { MatchOption result.1 (parts mark text.entry.now ≡ result.0.now ∷ []) (λ rest. parts mark text.entry.now ≡ result.0.now ∷ parts mark rest.now) }
    ensures before { result.0.now ≡ before_mark mark text.entry.now }
    ensures after { MatchOption result.1 (after_mark mark text.entry.now ≡ []) (λ rest. after_mark mark text.entry.now ≡ rest.now) }
    ensures shorter { IfSome result.1 (λ rest. length rest.now < length text.entry.now) }
{
    let mut at = 0;
    'bytes: while at < text.len() {
        if mark.is(text[at]) {
            return (&text[..at], Some(&text[at + 1..]));
        }
        at += 1;
    }
    (text, None)
}

/// The text before the mark and after it, where it stands exactly once.
pub fn two_parts(text: &[u8], mark: Mark) -> Option<(&[u8], &[u8])>
    ensures { option_map (λ f. (f.0.now, f.1.now)) result ≡ pair (parts mark text.entry.now) }
{
    let (left, more) = first_part(text, mark);
    let Some(rest) = more else {
        return None;
    };
    let (right, third) = first_part(rest, mark);
    match third {
        Some(_later) => None,
        None => Some((left, right)),
    }
}
