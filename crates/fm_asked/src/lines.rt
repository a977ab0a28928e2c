// The lines of a text, one after the other.
ghost use Rattle.std.specs.Prelude.{IfSome, MatchOption, [], length, ◌<◌, ◌∷◌, ◌≡◌};
ghost use Rattle.fm_judge.specs.Judging.{all_lines};

use fm_words::{Mark, first_part};

/// The next line of a text, without its LF, and the text behind it. What stands behind the last LF is a line where it isn't empty. It takes no memory, and
/// time for the bytes of the line.
pub fn next_line(text: &[u8]) -> Option<(&[u8], &[u8])>
    ensures lines { MatchOption result (all_lines text.entry.now ≡ []) (λ f. all_lines text.entry.now ≡ f.0.now ∷ all_lines f.1.now) }
    ensures shorter { IfSome result (λ f. length f.1.now < length text.entry.now) }
{
    if text.is_empty() {
        return None;
    }
    let (line, more) = first_part(text, Mark::Feed);
    match more {
        Some(rest) => Some((line, rest)),
        None => Some((line, &text[text.len()..])),
    }
}
