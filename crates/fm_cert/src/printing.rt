// The pieces of lines as bytes, each word after a blank.
ghost use Rattle.std.specs.Prelude.{OnOk, [], ◌∷◌, ◌++◌, ◌≡◌, decimal, length, map, string_bytes, true};
ghost use Rattle.fm_text.specs.Printing.{joined};
ghost use Rattle.fm_cert.specs.Ends.{is_numbered as numbered, side_words, task_word as word_of_task, task_words};
ghost use Rattle.fm_cert.specs.Fields.{by_words, keep_word as word_to_keep, polynomial_word, yes_with_words, yes_word as word_of_yes};
ghost use Rattle.fm_cert.specs.Pieces.{ArePiecesOver, IsPieceOver, piece_words, row_words, words_text};
ghost use Rattle.std.specs.List.{flat_map};

use crate::piece::Piece;
use crate::polynomials::{push_columns, push_generators, push_vector};
use fm_poly::Poly;
use fm_run::{Name, Side, Task};
use fm_text::push_poly;
use itoa::Buffer;
use std::alloc::AllocError;

/// Appends a line: its first word, its pieces, and LF.
pub fn push_row(
    names: &[String],
    first: &[u8],
    rest: &[Piece<'_>],
    out: &mut Vec<u8>,
) -> Result<(), AllocError>
    requires { ArePiecesOver (length names.now) rest.now }
    ensures { OnOk result (out.new.items ≡ out.old.items ++ words_text (row_words (map string_bytes names.now) first.now rest.now)) }
{
    out.extend_from_slice(first)?;
    push_pieces(names, rest, out)?;
    out.push(b'\n')?;
    Ok(())
}

fn push_pieces(names: &[String], pieces: &[Piece<'_>], out: &mut Vec<u8>) -> Result<(), AllocError>
    requires { ArePiecesOver (length names.now) pieces.now }
    ensures { OnOk result (out.new.items ≡ out.old.items ++ joined 32 true (flat_map (piece_words (map string_bytes names.now)) pieces.now)) }
{
    for piece in pieces {
        push_piece(names, piece, out)?;
    }
    Ok(())
}

fn push_piece(names: &[String], piece: &Piece<'_>, out: &mut Vec<u8>) -> Result<(), AllocError>
    requires { IsPieceOver (length names.now) piece.now }
    ensures { OnOk result (out.new.items ≡ out.old.items ++ joined 32 true (piece_words (map string_bytes names.now) piece.now)) }
{
    match piece {
        Piece::Word(word) => push_word(word, out)?,
        Piece::Number(n) => push_number(*n, out)?,
        Piece::Numbers(numbers) => push_numbers(numbers, out)?,
        Piece::By(members) => push_by(members, out)?,
        Piece::YesNo(yes) => push_word(yes_word(*yes), out)?,
        Piece::YesWith(word, n) => push_yes_with(word, *n, out)?,
        Piece::Keep(keep) => push_word(keep_word(*keep), out)?,
        Piece::Names => push_names(names, out)?,
        Piece::Task(task) => push_task(*task, out)?,
        Piece::Polynomial(f) => push_polynomial(names, f, out)?,
        Piece::Vector(entries) => push_vector(names, entries, out)?,
        Piece::Generators(generators) => push_generators(names, generators, out)?,
        Piece::Columns(columns) => {
            push_number(columns.len() as u64, out)?;
            push_columns(names, columns, out)?;
        }
    }
    Ok(())
}

fn push_word(word: &[u8], out: &mut Vec<u8>) -> Result<(), AllocError>
    ensures { OnOk result (out.new.items ≡ out.old.items ++ joined 32 true (word.now ∷ [])) }
{
    out.push(b' ')?;
    out.extend_from_slice(word)?;
    Ok(())
}

fn push_number(n: u64, out: &mut Vec<u8>) -> Result<(), AllocError>
    ensures { OnOk result (out.new.items ≡ out.old.items ++ joined 32 true (decimal n ∷ [])) }
{
    let mut digits = Buffer::new();
    push_word(digits.format(n).as_bytes(), out)?;
    Ok(())
}

fn push_numbers(numbers: &[u64], out: &mut Vec<u8>) -> Result<(), AllocError>
    ensures { OnOk result (out.new.items ≡ out.old.items ++ joined 32 true (map decimal numbers.now)) }
{
    let mut left = numbers;
    'numbers: loop {
        let Some((n, rest)) = left.split_first() else {
            return Ok(());
        };
        push_number(*n, out)?;
        left = rest;
    }
}

fn push_by(members: &[u32], out: &mut Vec<u8>) -> Result<(), AllocError>
    ensures { OnOk result (out.new.items ≡ out.old.items ++ joined 32 true (by_words members.now)) }
{
    if members.is_empty() {
        return Ok(());
    }
    push_word(b"by", out)?;
    push_members(members, out)?;
    Ok(())
}

fn push_members(members: &[u32], out: &mut Vec<u8>) -> Result<(), AllocError>
    ensures { OnOk result (out.new.items ≡ out.old.items ++ joined 32 true (map decimal members.now)) }
{
    let mut left = members;
    'members: loop {
        let Some((member, rest)) = left.split_first() else {
            return Ok(());
        };
        push_number(u64::from(*member), out)?;
        left = rest;
    }
}

fn yes_word(yes: bool) -> &'static [u8]
    ensures { result.now ≡ word_of_yes yes }
{
    if yes { b"yes" } else { b"no" }
}

fn push_yes_with(word: &[u8], n: Option<u64>, out: &mut Vec<u8>) -> Result<(), AllocError>
    ensures { OnOk result (out.new.items ≡ out.old.items ++ joined 32 true (yes_with_words word.now n)) }
{
    let Some(n) = n else {
        push_word(b"no", out)?;
        return Ok(());
    };
    push_word(b"yes", out)?;
    push_word(word, out)?;
    push_number(n, out)?;
    Ok(())
}

fn keep_word(keep: bool) -> &'static [u8]
    ensures { result.now ≡ word_to_keep keep }
{
    if keep { b"keep" } else { b"zero" }
}

fn push_names(names: &[String], out: &mut Vec<u8>) -> Result<(), AllocError>
    ensures { OnOk result (out.new.items ≡ out.old.items ++ joined 32 true (map string_bytes names.now)) }
{
    let mut left = names;
    'names: loop {
        let Some((name, rest)) = left.split_first() else {
            return Ok(());
        };
        push_word(name.as_bytes(), out)?;
        left = rest;
    }
}

fn push_polynomial(names: &[String], f: &Poly, out: &mut Vec<u8>) -> Result<(), AllocError>
    requires { length names.now ≡ f.now.ring.vars }
    ensures { OnOk result (out.new.items ≡ out.old.items ++ joined 32 true (polynomial_word (map string_bytes names.now) f.now ∷ [])) }
{
    out.push(b' ')?;
    push_poly(names, f, out)?;
    Ok(())
}

fn push_task(task: Task, out: &mut Vec<u8>) -> Result<(), AllocError>
    ensures { OnOk result (out.new.items ≡ out.old.items ++ joined 32 true (task_words task)) }
{
    push_side(task.side, out)?;
    push_word(task_word(task.name), out)?;
    if is_numbered(task.name) {
        push_number(task.number, out)?;
    }
    Ok(())
}

fn push_side(side: Side, out: &mut Vec<u8>) -> Result<(), AllocError>
    ensures { OnOk result (out.new.items ≡ out.old.items ++ joined 32 true (side_words side)) }
{
    match side {
        Side::Alone => Ok(()),
        Side::Source => push_word(b"source", out),
        Side::Target => push_word(b"target", out),
    }
}

/// The word of a task in lines.
pub fn task_word(name: Name) -> &'static [u8]
    ensures { result.now ≡ word_of_task name }
{
    match name {
        Name::Resolve => b"resolve",
        Name::Lift => b"lift",
        Name::Cocycles => b"cocycles",
        Name::Relations => b"relations",
        Name::Morphism => b"morphism",
        Name::Chain => b"chain",
        Name::Whole => b"whole",
        Name::Member => b"member",
        Name::Test => b"test",
        Name::Coordinates => b"coordinates",
        Name::Stage => b"stage",
        Name::Annihilator => b"annihilator",
        Name::Colon => b"colon",
        Name::Power => b"power",
        Name::Contained => b"contained",
        Name::Lambda => b"lambda",
        Name::Phi => b"phi",
        Name::Null => b"null",
        Name::One => b"one",
        Name::Onto => b"onto",
    }
}

/// Whether a number stands after the word of a task.
pub fn is_numbered(name: Name) -> bool
    ensures { result ≡ numbered name }
{
    matches!(
        name,
        Name::Resolve
            | Name::Lift
            | Name::Chain
            | Name::Stage
            | Name::Colon
            | Name::Lambda
            | Name::Onto
    )
}
