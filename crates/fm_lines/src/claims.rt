// Rows of claims, which are known by their first word.
ghost use Rattle.std.specs.Prelude.{◌≡◌, IfOk, option_map};
ghost use Rattle.fm_cert.specs.Kinds.{Datum, Grows, Lives, Short};
ghost use Rattle.fm_lines.specs.Groups.{from_annihilator, from_chain, from_datum, from_null, from_whole};
ghost use Rattle.fm_lines.specs.Left.{left};
ghost use Rattle.fm_lines.specs.Plain.{line_among, plain_line};
ghost use Rattle.fm_lines.specs.Rows.{row_line};

use crate::Row;
use crate::lists::{excluded, number_and_by};
use crate::names::name;
use crate::numbers::{number, one_and_generated, one_number, two_and_generated, two_numbers};
use crate::words::Words;
use std::alloc::{AllocError, Global};

/// As `read_first_row`, for the words from `datum` on.
pub(crate) fn read_datum_row<'a>(
    alloc: Global,
    word: &[u8],
    words: Words<'a>,
) -> Result<Option<Row<'a>>, AllocError>
    ensures { IfOk result (λ o. option_map row_line o ≡ line_among word.now (left words.entry) from_datum) }
{
    if word == b"datum".as_slice() {
        return Ok(read_datum(words));
    }
    if word == b"d".as_slice() {
        return Ok(two_numbers(words).map(|f| Row::D { j: f.0, part: f.1 }));
    }
    if word == b"exact".as_slice() {
        return Ok(one_and_generated(words).map(|f| Row::Exact { j: f.0, shown: f.1 }));
    }
    if word == b"theta".as_slice() {
        return Ok(two_numbers(words).map(|f| Row::Theta { j: f.0, part: f.1 }));
    }
    if word == b"cocycles".as_slice() {
        return Ok(one_and_generated(words).map(|f| Row::Cocycles {
            part: f.0,
            shown: f.1,
        }));
    }
    if word == b"relations".as_slice() {
        return Ok(one_and_generated(words).map(|f| Row::Relations {
            part: f.0,
            shown: f.1,
        }));
    }
    if word == b"morphism".as_slice() {
        return Ok(one_number(words).map(|part| Row::Morphism { part }));
    }
    read_chain_row(alloc, word, words)
}

// As `read_first_row`, for the words from `chain` on.
fn read_chain_row<'a>(
    alloc: Global,
    word: &[u8],
    words: Words<'a>,
) -> Result<Option<Row<'a>>, AllocError>
    ensures { IfOk result (λ o. option_map row_line o ≡ line_among word.now (left words.entry) from_chain) }
{
    if word == b"chain".as_slice() {
        return Ok(two_and_generated(words).map(|f| Row::Chain {
            s: f.0,
            part: f.1,
            shown: f.2,
        }));
    }
    if word == b"grows".as_slice() {
        return read_grows(alloc, words);
    }
    if word == b"stable".as_slice() {
        return Ok(two_numbers(words).map(|f| Row::Stable { t: f.0, w: f.1 }));
    }
    if word == b"Z".as_slice() {
        return Ok(one_number(words).map(|part| Row::Z { part }));
    }
    if word == b"N".as_slice() {
        return Ok(one_number(words).map(|part| Row::N { part }));
    }
    if word == b"U".as_slice() {
        return Ok(one_number(words).map(|part| Row::U { part }));
    }
    if word == b"K".as_slice() {
        return Ok(two_numbers(words).map(|f| Row::K { s: f.0, part: f.1 }));
    }
    read_whole_row(alloc, word, words)
}

// As `read_first_row`, for the words from `whole` on.
fn read_whole_row<'a>(
    alloc: Global,
    word: &[u8],
    words: Words<'a>,
) -> Result<Option<Row<'a>>, AllocError>
    ensures { IfOk result (λ o. option_map row_line o ≡ line_among word.now (left words.entry) from_whole) }
{
    if word == b"whole".as_slice() {
        return Ok(one_number(words).map(|w| Row::Whole { w }));
    }
    if word == b"proper".as_slice() {
        return Ok(excluded(alloc, words)?.map(|shown| Row::Proper { shown }));
    }
    if word == b"coordinates".as_slice() {
        return Ok(one_number(words).map(|part| Row::Coordinates { part }));
    }
    if word == b"lives".as_slice() {
        return read_lives(alloc, words);
    }
    if word == b"dies".as_slice() {
        return Ok(two_numbers(words).map(|f| Row::Dies { m: f.0, w: f.1 }));
    }
    if word == b"cofactors".as_slice() {
        return Ok(one_number(words).map(|x| Row::Cofactors { x }));
    }
    if word == b"foreign".as_slice() {
        return Ok(number_and_by(alloc, words)?.map(|f| Row::Foreign { log: f.0, by: f.1 }));
    }
    read_annihilator_row(alloc, word, words)
}

// As `read_first_row`, for the words from `annihilator` on.
fn read_annihilator_row<'a>(
    alloc: Global,
    word: &[u8],
    words: Words<'a>,
) -> Result<Option<Row<'a>>, AllocError>
    ensures { IfOk result (λ o. option_map row_line o ≡ line_among word.now (left words.entry) from_annihilator) }
{
    if word == b"annihilator".as_slice() {
        return Ok(one_and_generated(words).map(|f| Row::Annihilator {
            part: f.0,
            shown: f.1,
        }));
    }
    if word == b"power".as_slice() {
        return Ok(one_number(words).map(|w| Row::Power { w }));
    }
    if word == b"least".as_slice() {
        return Ok(excluded(alloc, words)?.map(|shown| Row::Least { shown }));
    }
    if word == b"colon".as_slice() {
        return Ok(two_and_generated(words).map(|f| Row::Colon {
            j: f.0,
            part: f.1,
            shown: f.2,
        }));
    }
    if word == b"settles".as_slice() {
        return Ok(two_numbers(words).map(|f| Row::Settles { j: f.0, w: f.1 }));
    }
    if word == b"lambda".as_slice() {
        return Ok(two_numbers(words).map(|f| Row::Lambda { j: f.0, part: f.1 }));
    }
    if word == b"phi".as_slice() {
        return Ok(one_number(words).map(|part| Row::Phi { part }));
    }
    read_null_row(alloc, word, words)
}

// As `read_first_row`, for the words from `null` on.
fn read_null_row<'a>(
    alloc: Global,
    word: &[u8],
    words: Words<'a>,
) -> Result<Option<Row<'a>>, AllocError>
    ensures { IfOk result (λ o. option_map row_line o ≡ line_among word.now (left words.entry) from_null) }
{
    if word == b"null".as_slice() {
        return Ok(one_number(words).map(|w| Row::Null { w }));
    }
    if word == b"nonnull".as_slice() {
        return Ok(excluded(alloc, words)?.map(|shown| Row::NonNull { shown }));
    }
    if word == b"fibre".as_slice() {
        return Ok(one_and_generated(words).map(|f| Row::Fibre {
            part: f.0,
            shown: f.1,
        }));
    }
    if word == b"one".as_slice() {
        return Ok(one_number(words).map(|w| Row::One { w }));
    }
    if word == b"notone".as_slice() {
        return Ok(excluded(alloc, words)?.map(|shown| Row::NotOne { shown }));
    }
    if word == b"link".as_slice() {
        return Ok(two_and_generated(words).map(|f| Row::Link {
            r: f.0,
            part: f.1,
            shown: f.2,
        }));
    }
    if word == b"short".as_slice() {
        return read_short(alloc, words);
    }
    if word == b"onto".as_slice() {
        return Ok(two_numbers(words).map(|f| Row::Onto { r: f.0, w: f.1 }));
    }
    if word == b"closes".as_slice() {
        return Ok(two_numbers(words).map(|f| Row::Closes { r: f.0, w: f.1 }));
    }
    if word == b"done".as_slice() {
        return Ok(one_number(words).map(|number| Row::Done { number }));
    }
    Ok(None)
}

fn read_datum(words: Words<'_>) -> Option<Row<'_>>
    ensures { option_map row_line result ≡ plain_line Datum (left words.entry) }
{
    let (name, rest) = name(words)?;
    let degree = one_number(rest)?;
    Some(Row::Datum { name, degree })
}

fn read_grows(alloc: Global, words: Words<'_>) -> Result<Option<Row<'_>>, AllocError>
    ensures { IfOk result (λ o. option_map row_line o ≡ plain_line Grows (left words.entry)) }
{
    let Some((s, rest)) = number(words) else {
        return Ok(None);
    };
    Ok(excluded(alloc, rest)?.map(|shown| Row::Grows { s, shown }))
}

fn read_short(alloc: Global, words: Words<'_>) -> Result<Option<Row<'_>>, AllocError>
    ensures { IfOk result (λ o. option_map row_line o ≡ plain_line Short (left words.entry)) }
{
    let Some((r, rest)) = number(words) else {
        return Ok(None);
    };
    Ok(excluded(alloc, rest)?.map(|shown| Row::Short { r, shown }))
}

fn read_lives(alloc: Global, words: Words<'_>) -> Result<Option<Row<'_>>, AllocError>
    ensures { IfOk result (λ o. option_map row_line o ≡ plain_line Lives (left words.entry)) }
{
    let Some((k, rest)) = number(words) else {
        return Ok(None);
    };
    match number_and_by(alloc, rest)? {
        Some((log, by)) => Ok(Some(Row::Lives { k, log, by })),
        None => Ok(None),
    }
}
