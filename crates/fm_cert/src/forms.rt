// The printed forms of matrices.
ghost use Rattle.std.specs.Prelude.{IfOk, OnOk, map, string_bytes, length, zero, ◌++◌, ◌≡◌};
ghost use Rattle.fm_cert.specs.Fields.{vector_word as word_of_vector};
ghost use Rattle.fm_cert.specs.Naming.{grid_words};
ghost use Rattle.fm_cert.specs.Parts.{grid_value, words_of};
ghost use Rattle.fm_cert.specs.Pieces.{AreColumnsOver, AreOverVariables, columns_of};
ghost use Rattle.std.specs.Prelude.{decimal};

use crate::Grid;
use crate::polynomials::push_parenthesized;
use fm_poly::Poly;
use itoa::Buffer;
use std::alloc::{AllocError, Global};

/// The words of the form `given ROWS COLUMNS VECTOR ..` of a matrix.
pub(crate) fn form_of(
    alloc: Global,
    names: &[String],
    grid: &Grid,
) -> Result<Vec<Vec<u8>>, AllocError>
    requires { AreColumnsOver (length names.now) grid.now.columns.items }
    ensures { IfOk result (λ form. words_of form.items ≡ grid_words (map string_bytes names.now) (grid_value grid.now)) }
{
    let mut words = Vec::new(alloc);
    words.push(b"given".to_vec(alloc)?)?;
    words.push(number_word(alloc, grid.rows)?)?;
    words.push(number_word(alloc, grid.columns.len() as u64)?)?;
    push_vectors(alloc, names, &grid.columns, &mut words)?;
    Ok(words)
}

fn number_word(alloc: Global, n: u64) -> Result<Vec<u8>, AllocError>
    ensures { IfOk result (λ w. w.items ≡ decimal n) }
{
    let mut digits = Buffer::new();
    digits.format(n).as_bytes().to_vec(alloc)
}

fn vector_word(alloc: Global, names: &[String], entries: &[Poly]) -> Result<Vec<u8>, AllocError>
    requires { AreOverVariables (length names.now) entries.now }
    ensures { IfOk result (λ w. w.items ≡ word_of_vector (map string_bytes names.now) entries.now) }
{
    let mut word = Vec::new(alloc);
    push_parenthesized(names, entries, &mut word)?;
    Ok(word)
}

fn push_vectors(
    alloc: Global,
    names: &[String],
    columns: &[Vec<Poly>],
    words: &mut Vec<Vec<u8>>,
) -> Result<(), AllocError>
    requires { AreColumnsOver (length names.now) columns.now }
    ensures { OnOk result (words_of words.new.items
        ≡ words_of words.old.items ++ map (word_of_vector (map string_bytes names.now)) (columns_of columns.now)) }
{
    let mut left = columns;
    'columns: loop {
        let Some((column, rest)) = left.split_first() else {
            return Ok(());
        };
        let word = vector_word(alloc, names, column)?;
        words.push(word)?;
        left = rest;
    }
}
