// The words of a line, one after another.
ghost use Rattle.std.specs.Prelude.{◌≡◌, ◌<◌, [], ◌∷◌, IfSome, MatchOption, false, length};
ghost use Rattle.fm_words.specs.Parts.{before_mark, parts};
ghost use Rattle.fm_words.specs.Words.{is_empty};
ghost use Rattle.fm_words.specs.declared.mark.Mark.TheVariants.{Blank};
ghost use Rattle.fm_lines.specs.Left.{begins_with, left};

use fm_words::{Mark, first_part};

/// The words that are left of a text in which one blank stands between two words; no text is left after the last word.
#[derive(Clone, Copy)]
pub struct Words<'a> {
    pub rest: Option<&'a [u8]>,
}

/// The first word, and those after it.
pub(crate) fn first_of(words: Words<'_>) -> Option<(&[u8], Words<'_>)>
    ensures words { MatchOption result (left words.entry ≡ []) (λ f. left words.entry ≡ f.0.now ∷ left f.1) }
    ensures shorter { IfSome result (λ f. length (left f.1) < length (left words.entry)) }
{
    let text = words.rest?;
    let (word, rest) = first_part(text, Mark::Blank);
    Some((word, Words { rest }))
}

/// The words after this one, where it is the first.
pub(crate) fn after<'a>(word: &[u8], words: Words<'a>) -> Option<Words<'a>>
    ensures { MatchOption result (begins_with word.now (left words.entry) ≡ false) (λ rest. left words.entry ≡ word.now ∷ left rest) }
{
    let (first, rest) = first_of(words)?;
    if first == word { Some(rest) } else { None }
}

/// Whether no word is left.
pub(crate) fn is_end(words: Words<'_>) -> bool
    ensures { result ≡ is_empty (left words.entry) }
{
    first_of(words).is_none()
}

/// The first word of a text, and those after it.
pub(crate) fn cut(text: &[u8]) -> (&[u8], Words<'_>)
    ensures parts { parts Blank text.entry.now ≡ result.0.now ∷ left result.1 }
    ensures before { before_mark Blank text.entry.now ≡ result.0.now }
{
    let (word, rest) = first_part(text, Mark::Blank);
    (word, Words { rest })
}
