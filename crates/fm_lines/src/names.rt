// Names in lines.
ghost use Rattle.std.specs.Prelude.{◌≡◌, Some, option_map};
ghost use Rattle.fm_words.specs.Options.{where_so};
ghost use Rattle.fm_words.specs.Words.{is_name as is_name_word};
ghost use Rattle.fm_cert.specs.Fields.{first_word};
ghost use Rattle.fm_lines.specs.Left.{left};

use crate::words::{Words, first_of};
use fm_words::is_name;

/// A name, and the words after it.
pub(crate) fn name(words: Words<'_>) -> Option<(&[u8], Words<'_>)>
    ensures { option_map (λ f. (f.0.now, left f.1)) result ≡ first_word (λ w. where_so (is_name_word w) (Some w)) (left words.entry) }
{
    let (word, rest) = first_of(words)?;
    if is_name(word) {
        Some((word, rest))
    } else {
        None
    }
}
