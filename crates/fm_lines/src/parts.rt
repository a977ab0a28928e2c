// Rows of parts.
ghost use Rattle.std.specs.Prelude.{◌≡◌, ◌≤◌, ◌∷◌, [], IfOk, IfSome, codes, length, map, option_map, string_bytes};
ghost use Rattle.fm_cert.specs.Kinds.{Beside, Flip, Given, Pick, Stack, Times, Twist, part_kind};
ghost use Rattle.fm_lines.specs.KindLines.{kind_line};
ghost use Rattle.fm_lines.specs.Left.{left};
ghost use Rattle.fm_lines.specs.Plain.{line_after, plain_line, plain_row};
ghost use Rattle.fm_lines.specs.Rows.{IsRowOver, row_line};
ghost use Rattle.fm_lines.specs.Forms.{last_times, operands, operands_said, plain_part, times_said};

use crate::columns::columns;
use crate::lists::numbers;
use crate::numbers::{exact_number, number, one_number, two_numbers};
use crate::words::{Words, after, first_of, is_end};
use crate::{PartForm, Row};
use fm_poly::Ring;
use std::alloc::{AllocError, Global};

/// The row that follows the word `part`, by the form that stands after the number.
#[tactic(auto, using(crate::proofs::PlainRows::same_part))]
pub(crate) fn read_part<'a>(
    alloc: Global,
    ring: Ring,
    names: &[String],
    words: Words<'a>,
) -> Result<Option<Row<'a>>, AllocError>
    requires named { length names.now ≡ ring.vars }
    requires some { 1 ≤ ring.vars }
    requires few { ring.vars ≤ 8 }
    ensures line { IfOk result (λ o. option_map row_line o
        ≡ kind_line ring (map string_bytes names.now) (part_kind (left words.entry)) (left words.entry)) }
    ensures over { IfOk result (λ o. IfSome o (λ row. IsRowOver ring row)) }
{
    let Some((_, rest)) = first_of(words) else {
        return Ok(None);
    };
    let Some((form, _)) = first_of(rest) else {
        return Ok(None);
    };
    if form == b"given".as_slice() {
        return read_given(alloc, ring, names, words);
    }
    read_plain_part(alloc, form, words)
}

fn read_plain_part<'a>(
    alloc: Global,
    form: &[u8],
    words: Words<'a>,
) -> Result<Option<Row<'a>>, AllocError>
    ensures { IfOk result (λ o. option_map row_line o ≡ plain_part form.now (left words.entry)) }
{
    if form == b"twist".as_slice() {
        return Ok(read_twist(words));
    }
    if form == b"flip".as_slice() {
        return Ok(read_flip(words));
    }
    if form == b"beside".as_slice() {
        return Ok(read_beside(words));
    }
    if form == b"stack".as_slice() {
        return Ok(read_stack(words));
    }
    if form == b"times".as_slice() {
        return Ok(read_times(words));
    }
    if form == b"pick".as_slice() {
        return read_pick(alloc, words);
    }
    Ok(None)
}

#[tactic(auto, using(crate::proofs::Literals::not_there))]
fn read_given<'a>(
    alloc: Global,
    ring: Ring,
    names: &[String],
    words: Words<'a>,
) -> Result<Option<Row<'a>>, AllocError>
    requires named { length names.now ≡ ring.vars }
    requires some { 1 ≤ ring.vars }
    requires few { ring.vars ≤ 8 }
    ensures line { IfOk result (λ o. option_map row_line o ≡ line_after ring (map string_bytes names.now) Given (left words.entry)) }
    ensures over { IfOk result (λ o. IfSome o (λ row. IsRowOver ring row)) }
{
    let Some((part, rest)) = number(words) else {
        return Ok(None);
    };
    let Some(rest) = after(b"given", rest) else {
        return Ok(None);
    };
    let Some((rows, rest)) = number(rest) else {
        return Ok(None);
    };
    match columns(alloc, ring, names, rest)? {
        Some(columns) => Ok(Some(Row::Part {
            number: part,
            form: PartForm::Given { rows, columns },
        })),
        None => Ok(None),
    }
}

/// How often a twist is done, which is all that is left.
fn times(words: Words<'_>) -> Option<u8>
    ensures { option_map times_said result ≡ plain_row last_times (left words.entry) }
{
    let (word, rest) = first_of(words)?;
    let found = exact_number(word)?;
    if found > 16 {
        return None;
    }
    if !is_end(rest) {
        return None;
    }
    Some(found as u8)
}

#[tactic(auto, using(crate::proofs::Literals::not_there))]
fn read_twist(words: Words<'_>) -> Option<Row<'_>>
    ensures { option_map row_line result ≡ plain_line Twist (left words.entry) }
{
    let (k, rest) = number(words)?;
    let rest = after(b"twist", rest)?;
    let (part, rest) = number(rest)?;
    let times = times(rest)?;
    Some(Row::Part {
        number: k,
        form: PartForm::Twist { part, times },
    })
}

#[tactic(auto, using(crate::proofs::Literals::not_there))]
fn read_flip(words: Words<'_>) -> Option<Row<'_>>
    ensures { option_map row_line result ≡ plain_line Flip (left words.entry) }
{
    let (number, rest) = number(words)?;
    let rest = after(b"flip", rest)?;
    let part = one_number(rest)?;
    Some(Row::Part {
        number,
        form: PartForm::Flip { part },
    })
}

/// The number of a part, this form and its two operands, which are all that is left.
#[tactic(auto, using(crate::proofs::Literals::not_there))]
fn two_operands(form: &[u8], words: Words<'_>) -> Option<(u64, u64, u64)>
    ensures { option_map (operands_said form.now) result ≡ plain_row (operands form.now) (left words.entry) }
{
    let (number, rest) = number(words)?;
    let rest = after(form, rest)?;
    let (first, second) = two_numbers(rest)?;
    Some((number, first, second))
}

fn read_beside(words: Words<'_>) -> Option<Row<'_>>
    ensures { option_map row_line result ≡ plain_line Beside (left words.entry) }
{
    let (number, left, right) = two_operands(b"beside", words)?;
    Some(Row::Part {
        number,
        form: PartForm::Beside { left, right },
    })
}

fn read_stack(words: Words<'_>) -> Option<Row<'_>>
    ensures { option_map row_line result ≡ plain_line Stack (left words.entry) }
{
    let (number, above, below) = two_operands(b"stack", words)?;
    Some(Row::Part {
        number,
        form: PartForm::Stack { above, below },
    })
}

fn read_times(words: Words<'_>) -> Option<Row<'_>>
    ensures { option_map row_line result ≡ plain_line Times (left words.entry) }
{
    let (number, left, right) = two_operands(b"times", words)?;
    Some(Row::Part {
        number,
        form: PartForm::Times { left, right },
    })
}

#[tactic(auto, using(crate::proofs::Literals::not_there))]
fn read_pick(alloc: Global, words: Words<'_>) -> Result<Option<Row<'_>>, AllocError>
    ensures { IfOk result (λ o. option_map row_line o ≡ plain_line Pick (left words.entry)) }
{
    let Some((part, rest)) = number(words) else {
        return Ok(None);
    };
    let Some(rest) = after(b"pick", rest) else {
        return Ok(None);
    };
    let Some((from, rest)) = number(rest) else {
        return Ok(None);
    };
    match numbers(alloc, rest)? {
        Some(columns) => Ok(Some(Row::Part {
            number: part,
            form: PartForm::Pick {
                part: from,
                columns,
            },
        })),
        None => Ok(None),
    }
}
