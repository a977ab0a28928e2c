// Rows of words and fields.
ghost use Rattle.std.specs.Prelude.{◌≡◌, ◌≤◌, ◌∷◌, IfOk, IfSome, length, map, option_map, string_bytes};
ghost use Rattle.fm_cert.specs.Kinds.{closing_kind, kind_of};
ghost use Rattle.fm_lines.specs.KindLines.{kind_line, plain_kind_line};
ghost use Rattle.fm_lines.specs.Left.{left};
ghost use Rattle.fm_lines.specs.declared.row.Row.TheVariants.{Ended};
ghost use Rattle.fm_lines.specs.Plain.{line_after, plain_line};
ghost use Rattle.fm_lines.specs.PlainKinds.{answered, plain_kind};
ghost use Rattle.fm_lines.specs.Rows.{IsRowOver, row_line};

use crate::answers::read_answer;
use crate::endings::{read_refused, read_unanswered};
use crate::first_words::read_first_row;
use crate::parts::read_part;
use crate::words::{Words, after, is_end};
use crate::{Ending, Row};
use fm_poly::Ring;
use fm_problem::Query;
use std::alloc::{AllocError, Global};

// The row of an ending.
fn ended(ending: Option<Ending<'_>>) -> Option<Row<'_>>
    ensures { result ≡ option_map Ended ending.entry }
{
    match ending {
        Some(ending) => Some(Row::Ended(ending)),
        None => None,
    }
}

// The row that follows the word `end`.
#[tactic(auto, using(crate::proofs::Literals::not_there))]
fn read_end(words: Words<'_>) -> Option<Row<'_>>
    ensures { option_map row_line result ≡ plain_kind_line (closing_kind (left words.entry)) (left words.entry) }
{
    if is_end(words) {
        return Some(Row::EndLog);
    }
    let rest = after(b"report", words)?;
    if is_end(rest) {
        Some(Row::EndReport)
    } else {
        None
    }
}

// The row of these words after the first one, where it is of a kind without polynomials.
fn read_plain_row<'a>(
    alloc: Global,
    word: &[u8],
    words: Words<'a>,
) -> Result<Option<Row<'a>>, AllocError>
    ensures { IfOk result (λ o. option_map row_line o ≡ plain_kind_line (plain_kind word.now (left words.entry)) (left words.entry)) }
{
    if word == b"unanswered".as_slice() {
        return Ok(ended(read_unanswered(words)));
    }
    if word == b"refused".as_slice() {
        return Ok(ended(read_refused(words)));
    }
    if word == b"end".as_slice() {
        return Ok(read_end(words));
    }
    read_first_row(alloc, word, words)
}

// The row that follows the word `answer`.
fn read_answer_row<'a>(
    alloc: Global,
    ring: Ring,
    names: &[String],
    asked: Option<&Query>,
    words: Words<'a>,
) -> Result<Option<Row<'a>>, AllocError>
    requires named { length names.now ≡ ring.vars }
    requires some { 1 ≤ ring.vars }
    requires few { ring.vars ≤ 8 }
    ensures line { IfOk result (λ o. option_map row_line o
        ≡ kind_line ring (map string_bytes names.now) (answered (option_map (λ q. q.now) asked.entry)) (left words.entry)) }
    ensures over { IfOk result (λ o. IfSome o (λ row. IsRowOver ring row)) }
{
    let Some(query) = asked else {
        return Ok(None);
    };
    let ending = read_answer(alloc, ring, names, query, words)?;
    Ok(ended(ending))
}

/// The row of these words after the first one, under the query that was asked last.
#[tactic(auto, using(crate::proofs::PlainKinds::same_plain, crate::proofs::PlainKinds::over_plain))]
pub(crate) fn read_row<'a>(
    alloc: Global,
    ring: Ring,
    names: &[String],
    asked: Option<&Query>,
    word: &[u8],
    words: Words<'a>,
) -> Result<Option<Row<'a>>, AllocError>
    requires named { length names.now ≡ ring.vars }
    requires some { 1 ≤ ring.vars }
    requires few { ring.vars ≤ 8 }
    ensures line { IfOk result (λ o. option_map row_line o
        ≡ kind_line ring (map string_bytes names.now) (kind_of (option_map (λ q. q.now) asked.entry) (word.now ∷ left words.entry)) (left words.entry)) }
    ensures over { IfOk result (λ o. IfSome o (λ row. IsRowOver ring row)) }
{
    if word == b"part".as_slice() {
        return read_part(alloc, ring, names, words);
    }
    if word == b"answer".as_slice() {
        return read_answer_row(alloc, ring, names, asked, words);
    }
    read_plain_row(alloc, word, words)
}
