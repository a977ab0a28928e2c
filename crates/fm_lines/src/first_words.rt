// Rows that are known by their first word.
ghost use Rattle.std.specs.Prelude.{◌≡◌, ◌∷◌, IfOk, option_map};
ghost use Rattle.fm_cert.specs.Kinds.{Input, Log, Pair, Report, Skip, by_first};
ghost use Rattle.fm_lines.specs.Left.{left};
ghost use Rattle.fm_lines.specs.Plain.{line_among, plain_line};
ghost use Rattle.fm_lines.specs.Rows.{row_line};

use crate::Row;
use crate::claims::read_datum_row;
use crate::lists::by_and_keep;
use crate::numbers::{number, one_number, two_numbers};
use crate::words::{Words, after};
use std::alloc::{AllocError, Global};

/// The row of these words after the first one, which tells its kind.
pub(crate) fn read_first_row<'a>(
    alloc: Global,
    word: &[u8],
    words: Words<'a>,
) -> Result<Option<Row<'a>>, AllocError>
    ensures { IfOk result (λ o. option_map row_line o ≡ line_among word.now (left words.entry) by_first) }
{
    if word == b"report".as_slice() {
        return Ok(one_number(words).map(|version| Row::Report { version }));
    }
    if word == b"log".as_slice() {
        return Ok(two_numbers(words).map(|f| Row::Log {
            number: f.0,
            part: f.1,
        }));
    }
    if word == b"input".as_slice() {
        return read_input(alloc, words);
    }
    if word == b"pair".as_slice() {
        return read_pair(alloc, words);
    }
    if word == b"skip".as_slice() {
        return Ok(read_skip(words));
    }
    read_datum_row(alloc, word, words)
}

fn read_input(alloc: Global, words: Words<'_>) -> Result<Option<Row<'_>>, AllocError>
    ensures { IfOk result (λ o. option_map row_line o ≡ plain_line Input (left words.entry)) }
{
    let Some((input, rest)) = number(words) else {
        return Ok(None);
    };
    match by_and_keep(alloc, rest)? {
        Some((by, keep)) => Ok(Some(Row::Input { input, by, keep })),
        None => Ok(None),
    }
}

fn read_pair(alloc: Global, words: Words<'_>) -> Result<Option<Row<'_>>, AllocError>
    ensures { IfOk result (λ o. option_map row_line o ≡ plain_line Pair (left words.entry)) }
{
    let Some((first, rest)) = number(words) else {
        return Ok(None);
    };
    let Some((second, rest)) = number(rest) else {
        return Ok(None);
    };
    match by_and_keep(alloc, rest)? {
        Some((by, keep)) => Ok(Some(Row::Pair {
            first,
            second,
            by,
            keep,
        })),
        None => Ok(None),
    }
}

#[tactic(auto, using(crate::proofs::Literals::not_there))]
fn read_skip(words: Words<'_>) -> Option<Row<'_>>
    ensures { option_map row_line result ≡ plain_line Skip (left words.entry) }
{
    let (first, rest) = number(words)?;
    let (second, rest) = number(rest)?;
    let rest = after(b"by", rest)?;
    let by = one_number(rest)?;
    Some(Row::Skip { first, second, by })
}
