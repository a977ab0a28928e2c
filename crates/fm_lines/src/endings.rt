// Rows that tell how a query ends without an answer.
ghost use Rattle.std.specs.Prelude.{◌≡◌, option_map};
ghost use Rattle.fm_cert.specs.Kinds.{Ended, NotCocycle, NotContained, WrongLength, refused_kind, unanswered_kind};
ghost use Rattle.fm_lines.specs.KindLines.{plain_kind_line};
ghost use Rattle.fm_lines.specs.Left.{left};
ghost use Rattle.fm_lines.specs.Plain.{plain_line};
ghost use Rattle.fm_lines.specs.Rows.{ending_line};

use crate::Ending;
use crate::numbers::{number, one_number};
use crate::texts::task;
use crate::words::{Words, after, first_of};

/// The ending that follows the word `unanswered`.
pub(crate) fn read_unanswered(words: Words<'_>) -> Option<Ending<'_>>
    ensures { option_map ending_line result ≡ plain_kind_line (unanswered_kind (left words.entry)) (left words.entry) }
{
    let (why, rest) = first_of(words)?;
    if why == b"budget".as_slice() {
        return Some(Ending::Budget { task: task(rest)? });
    }
    if why == b"exponents".as_slice() {
        return Some(Ending::Exponents { task: task(rest)? });
    }
    None
}

/// The ending that follows the word `refused`.
pub(crate) fn read_refused(words: Words<'_>) -> Option<Ending<'_>>
    ensures { option_map ending_line result ≡ plain_kind_line (refused_kind (left words.entry)) (left words.entry) }
{
    let (first, rest) = first_of(words)?;
    let (second, _) = first_of(rest)?;
    if first == b"wrong".as_slice() {
        return read_wrong_length(words);
    }
    if second == b"a".as_slice() {
        return read_not_cocycle(words);
    }
    if second == b"contained".as_slice() {
        return read_not_contained(words);
    }
    None
}

#[tactic(auto, using(crate::proofs::Literals::not_there))]
fn read_wrong_length(words: Words<'_>) -> Option<Ending<'_>>
    ensures { option_map ending_line result ≡ plain_line (Ended WrongLength) (left words.entry) }
{
    let rest = after(b"wrong", words)?;
    let rest = after(b"length", rest)?;
    let (found, rest) = number(rest)?;
    let rest = after(b"needed", rest)?;
    let needed = one_number(rest)?;
    Some(Ending::WrongLength { found, needed })
}

#[tactic(auto, using(crate::proofs::Literals::not_there))]
fn read_not_cocycle(words: Words<'_>) -> Option<Ending<'_>>
    ensures { option_map ending_line result ≡ plain_line (Ended NotCocycle) (left words.entry) }
{
    let rest = after(b"not", words)?;
    let rest = after(b"a", rest)?;
    let rest = after(b"cocycle", rest)?;
    let rest = after(b"component", rest)?;
    let component = one_number(rest)?;
    Some(Ending::NotCocycle { component })
}

#[tactic(auto, using(crate::proofs::Literals::not_there))]
fn read_not_contained(words: Words<'_>) -> Option<Ending<'_>>
    ensures { option_map ending_line result ≡ plain_line (Ended NotContained) (left words.entry) }
{
    let rest = after(b"not", words)?;
    let rest = after(b"contained", rest)?;
    let rest = after(b"generator", rest)?;
    let generator = one_number(rest)?;
    Some(Ending::NotContained { generator })
}
