// Lists of numbers in lines.
ghost use Rattle.std.specs.Prelude.{◌≡◌, IfOk, option_map};
ghost use Rattle.fm_cert.specs.Fields.{leading_numbers as leading_numbers_of, read_by, some_numbers};
ghost use Rattle.fm_lines.specs.Left.{left};
ghost use Rattle.fm_lines.specs.Plain.{plain_row};
ghost use Rattle.fm_lines.specs.Shapes.{by_and_keep as by_and_keep_row, by_said, excluded_said, kept_said, last_by as last_by_row, number_and_by as number_and_by_row, number_and_by_said, two_numbers_and_by};

use crate::Excluded;
use crate::flags::keep_or_zero;
use crate::numbers::{exact_number, number};
use crate::words::{Words, first_of, is_end};
use std::alloc::{AllocError, Global};

/// The numbers that are left, of which there is one at least.
pub(crate) fn numbers(alloc: Global, words: Words<'_>) -> Result<Option<Vec<u64>>, AllocError>
    ensures { IfOk result (λ o. option_map (λ v. v.items) o ≡ some_numbers (left words.entry)) }
{
    if is_end(words) {
        return Ok(None);
    }
    let mut found = Vec::new(alloc);
    let mut from = words;
    'numbers: loop {
        let Some((word, rest)) = first_of(from) else {
            return Ok(Some(found));
        };
        let Some(n) = exact_number(word) else {
            return Ok(None);
        };
        found.push(n)?;
        from = rest;
    }
}

// The numbers that stand first, and the words after them.
fn leading_numbers(alloc: Global, words: Words<'_>) -> Result<(Vec<u64>, Words<'_>), AllocError>
    ensures { IfOk result (λ f. (f.0.items, left f.1) ≡ leading_numbers_of (left words.entry)) }
{
    let mut found = Vec::new(alloc);
    let mut from = words;
    'numbers: loop {
        let Some((n, rest)) = number(from) else {
            return Ok((found, from));
        };
        found.push(n)?;
        from = rest;
    }
}

/// Nothing, or `by` and one or more numbers; and the words after it.
pub(crate) fn by_numbers(
    alloc: Global,
    words: Words<'_>,
) -> Result<Option<(Vec<u64>, Words<'_>)>, AllocError>
    ensures { IfOk result (λ o. option_map (λ f. (f.0.items, left f.1)) o ≡ read_by (left words.entry)) }
{
    let Some((word, rest)) = first_of(words) else {
        return Ok(Some((Vec::new(alloc), words)));
    };
    if word != b"by".as_slice() {
        return Ok(Some((Vec::new(alloc), words)));
    }
    let (found, rest) = leading_numbers(alloc, rest)?;
    if found.is_empty() {
        return Ok(None);
    }
    Ok(Some((found, rest)))
}

/// The members that reduce a vector, which are all that is left.
pub(crate) fn last_by(alloc: Global, words: Words<'_>) -> Result<Option<Vec<u64>>, AllocError>
    ensures { IfOk result (λ o. option_map by_said o ≡ plain_row last_by_row (left words.entry)) }
{
    match by_numbers(alloc, words)? {
        Some((by, rest)) => Ok(if is_end(rest) { Some(by) } else { None }),
        None => Ok(None),
    }
}

/// The members that reduce a vector, and whether something is left of it to be kept; this is all that is left.
pub(crate) fn by_and_keep(
    alloc: Global,
    words: Words<'_>,
) -> Result<Option<(Vec<u64>, bool)>, AllocError>
    ensures { IfOk result (λ o. option_map kept_said o ≡ plain_row by_and_keep_row (left words.entry)) }
{
    let Some((by, rest)) = by_numbers(alloc, words)? else {
        return Ok(None);
    };
    let Some((keep, rest)) = keep_or_zero(rest) else {
        return Ok(None);
    };
    if !is_end(rest) {
        return Ok(None);
    }
    Ok(Some((by, keep)))
}

/// A number, and the members that reduce a vector; this is all that is left.
pub(crate) fn number_and_by(
    alloc: Global,
    words: Words<'_>,
) -> Result<Option<(u64, Vec<u64>)>, AllocError>
    ensures { IfOk result (λ o. option_map number_and_by_said o ≡ plain_row number_and_by_row (left words.entry)) }
{
    let Some((found, rest)) = number(words) else {
        return Ok(None);
    };
    match last_by(alloc, rest)? {
        Some(by) => Ok(Some((found, by))),
        None => Ok(None),
    }
}

/// By what a column is shown to lie outside of an image, which is all that is left.
pub(crate) fn excluded(alloc: Global, words: Words<'_>) -> Result<Option<Excluded>, AllocError>
    ensures { IfOk result (λ o. option_map excluded_said o ≡ plain_row two_numbers_and_by (left words.entry)) }
{
    let Some((log, rest)) = number(words) else {
        return Ok(None);
    };
    match number_and_by(alloc, rest)? {
        Some((column, by)) => Ok(Some(Excluded { log, column, by })),
        None => Ok(None),
    }
}
