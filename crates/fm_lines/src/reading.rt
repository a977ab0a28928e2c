// Lines.
ghost use Rattle.std.specs.Prelude.{◌≡◌, ◌≤◌, IfOk, length, map, option_map, string_bytes};
ghost use Rattle.std.specs.List.{list_all};
ghost use Rattle.fm_words.specs.Parts.{parts};
ghost use Rattle.fm_words.specs.Words.{words as words_of};
ghost use Rattle.fm_words.specs.declared.mark.Mark.TheVariants.{Blank};
ghost use Rattle.fm_cert.specs.Lines.{begins_head as begins_head_words, is_full, line_of, question_of};
ghost use Rattle.fm_lines.specs.Rows.{IsLineOver, line_said};
ghost use Rattle.fm_lines.specs.TextLines.{words_line};

use crate::LineText;
use crate::numbers::exact_number;
use crate::rows::read_row;
use crate::words::Words;
use fm_poly::Ring;
use fm_problem::Query;
use fm_words::{Mark, first_part, next_word};
use std::alloc::{AllocError, Global};

fn begins_head(text: &[u8]) -> bool
    ensures { result ≡ begins_head_words (words_of text.now) }
{
    match next_word(text) {
        Some((word, _)) => {
            word == b"ring".as_slice()
                || (word == b"order".as_slice() || word == b"ideal".as_slice())
        }
        None => false,
    }
}

// Whether exactly one blank stands between two words, and none before or after them.
fn are_full(text: &[u8]) -> bool
    ensures { result ≡ list_all is_full (parts Blank text.now) }
{
    let mut from = text;
    'words: loop {
        let (word, more) = first_part(from, Mark::Blank);
        if word.is_empty() {
            return false;
        }
        let Some(rest) = more else {
            return true;
        };
        from = rest;
    }
}

// The question that follows the word `query`.
fn read_question(text: &[u8]) -> Option<LineText<'_>>
    ensures { line_said result ≡ question_of text.entry.now }
{
    let (digits, more) = first_part(text, Mark::Blank);
    let number = exact_number(digits)?;
    let question = match more {
        Some(rest) => rest,
        None => &text[text.len()..],
    };
    Some(LineText::Question { number, question })
}

// The line of a text that is neither of a head nor a query.
#[tactic(auto, using(crate::proofs::FirstWords::row_is))]
fn read_words<'a>(
    alloc: Global,
    ring: Ring,
    names: &[String],
    asked: Option<&Query>,
    text: &'a [u8],
) -> Result<Option<LineText<'a>>, AllocError>
    requires named { length names.now ≡ ring.vars }
    requires some { 1 ≤ ring.vars }
    requires few { ring.vars ≤ 8 }
    ensures line { IfOk result (λ o. line_said o ≡ words_line ring (map string_bytes names.now) (option_map (λ q. q.now) asked.entry) text.entry.now) }
    ensures over { IfOk result (λ o. IsLineOver ring o) }
{
    if !are_full(text) {
        return Ok(None);
    }
    let (word, rest) = first_part(text, Mark::Blank);
    match read_row(alloc, ring, names, asked, word, Words { rest })? {
        Some(row) => Ok(Some(LineText::Row(row))),
        None => Ok(None),
    }
}

/// What a line says, over a ring whose variables have these names, under the query that was asked last; None where it has no form.
/// Lines of the head and questions are told apart from rows alone: whether their texts have a form is for the reader of problems to judge.
#[tactic(auto, unfolding(fm_cert::specs::Lines::line_of, fm_cert::specs::Fields::exact_number))]
pub fn read_line<'a>(
    alloc: Global,
    ring: Ring,
    names: &[String],
    asked: Option<&Query>,
    text: &'a [u8],
) -> Result<Option<LineText<'a>>, AllocError>
    requires named { length names.now ≡ ring.vars }
    requires some { 1 ≤ ring.vars }
    requires few { ring.vars ≤ 8 }
    ensures line { IfOk result (λ o. line_said o ≡ line_of ring (map string_bytes names.now) (option_map (λ q. q.now) asked.entry) text.entry.now) }
    ensures over { IfOk result (λ o. IsLineOver ring o) }
{
    if begins_head(text) {
        return Ok(Some(LineText::Head(text)));
    }
    let (word, rest) = first_part(text, Mark::Blank);
    if word == b"query".as_slice() {
        return Ok(match rest {
            Some(question) => read_question(question),
            None => None,
        });
    }
    read_words(alloc, ring, names, asked, text)
}
