// Polynomials and vectors in lines.
ghost use Rattle.std.specs.Prelude.{OnOk, [], ◌∷◌, ◌++◌, ◌≡◌, length, map, string_bytes, true, false};
ghost use Rattle.fm_text.specs.Printing.{joined};
ghost use Rattle.fm_cert.specs.Fields.{comma_words, polynomial_word, vector_word};
ghost use Rattle.fm_cert.specs.Pieces.{AreColumnsOver, AreOverVariables, after_commas, columns_of};
ghost use Rattle.fm_cert.specs.Statements.{vector_of_texts};

use fm_poly::Poly;
use fm_text::push_poly;
use std::alloc::AllocError;

/// Appends a blank and a vector.
pub fn push_vector(names: &[String], entries: &[Poly], out: &mut Vec<u8>) -> Result<(), AllocError>
    requires { AreOverVariables (length names.now) entries.now }
    ensures { OnOk result (out.new.items
        ≡ out.old.items ++ joined 32 true (vector_of_texts (map (polynomial_word (map string_bytes names.now)) entries.now) ∷ [])) }
{
    out.push(b' ')?;
    push_parenthesized(names, entries, out)?;
    Ok(())
}

/// Appends a vector.
pub(crate) fn push_parenthesized(
    names: &[String],
    entries: &[Poly],
    out: &mut Vec<u8>,
) -> Result<(), AllocError>
    requires { AreOverVariables (length names.now) entries.now }
    ensures { OnOk result (out.new.items
        ≡ out.old.items ++ vector_of_texts (map (polynomial_word (map string_bytes names.now)) entries.now)) }
{
    out.push(b'(')?;
    push_entries(names, entries, out)?;
    out.push(b')')?;
    Ok(())
}

// Appends the entries, joined by commas.
fn push_entries(names: &[String], entries: &[Poly], out: &mut Vec<u8>) -> Result<(), AllocError>
    requires { AreOverVariables (length names.now) entries.now }
    ensures { OnOk result (out.new.items ≡ out.old.items ++ joined 44 false (map (polynomial_word (map string_bytes names.now)) entries.now)) }
{
    let Some((first, rest)) = entries.split_first() else {
        return Ok(());
    };
    push_poly(names, first, out)?;
    push_more_entries(names, rest, out)?;
    Ok(())
}

// Appends these entries, each after a comma.
fn push_more_entries(
    names: &[String],
    entries: &[Poly],
    out: &mut Vec<u8>,
) -> Result<(), AllocError>
    requires { AreOverVariables (length names.now) entries.now }
    ensures { OnOk result (out.new.items ≡ out.old.items ++ joined 44 true (map (polynomial_word (map string_bytes names.now)) entries.now)) }
{
    let mut left = entries;
    'entries: loop {
        let Some((entry, rest)) = left.split_first() else {
            return Ok(());
        };
        out.push(b',')?;
        push_poly(names, entry, out)?;
        left = rest;
    }
}

/// Appends the vectors, each after a blank.
pub(crate) fn push_columns(
    names: &[String],
    columns: &[Vec<Poly>],
    out: &mut Vec<u8>,
) -> Result<(), AllocError>
    requires { AreColumnsOver (length names.now) columns.now }
    ensures { OnOk result (out.new.items
        ≡ out.old.items ++ joined 32 true (map (vector_word (map string_bytes names.now)) (columns_of columns.now))) }
{
    let mut left = columns;
    'columns: loop {
        let Some((column, rest)) = left.split_first() else {
            return Ok(());
        };
        push_vector(names, column, out)?;
        left = rest;
    }
}

/// Appends generators, each after a blank and each but the last before a comma; `0` where there are none.
pub(crate) fn push_generators(
    names: &[String],
    generators: &[Poly],
    out: &mut Vec<u8>,
) -> Result<(), AllocError>
    requires { AreOverVariables (length names.now) generators.now }
    ensures { OnOk result (out.new.items
        ≡ out.old.items ++ joined 32 true (comma_words (map (polynomial_word (map string_bytes names.now)) generators.now))) }
{
    let Some((first, rest)) = generators.split_first() else {
        out.extend_from_slice(b" 0")?;
        return Ok(());
    };
    out.push(b' ')?;
    push_poly(names, first, out)?;
    push_more_generators(names, rest, out)?;
    Ok(())
}

// Appends these generators, each after a comma and a blank.
fn push_more_generators(
    names: &[String],
    generators: &[Poly],
    out: &mut Vec<u8>,
) -> Result<(), AllocError>
    requires { AreOverVariables (length names.now) generators.now }
    ensures { OnOk result (out.new.items
        ≡ out.old.items ++ after_commas (map (polynomial_word (map string_bytes names.now)) generators.now)) }
{
    let mut left = generators;
    'generators: loop {
        let Some((generator, rest)) = left.split_first() else {
            return Ok(());
        };
        out.extend_from_slice(b", ")?;
        push_poly(names, generator, out)?;
        left = rest;
    }
}
