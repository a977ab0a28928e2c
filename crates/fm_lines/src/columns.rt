// Columns of matrices in lines.
ghost use Rattle.std.specs.Prelude.{◌≡◌, ◌≤◌, ◌++◌, ◌∷◌, [], IfOk, IfSome, OnOk, length, map, option_map, string_bytes};
ghost use Rattle.fm_words.specs.Options.{all_of};
ghost use Rattle.fm_cert.specs.Fields.{counted_vectors, read_vector};
ghost use Rattle.fm_lines.specs.Left.{left};
ghost use Rattle.fm_lines.specs.Rows.{AreColumnsOver, columns_of};

use crate::numbers::number;
use crate::vectors::vector;
use crate::words::{Words, first_of};
use fm_poly::{Poly, Ring};
use std::alloc::{AllocError, Global};

// Appends a column.
fn add(found: &mut Vec<Vec<Poly>>, column: Vec<Poly>) -> Result<(), AllocError>
    ensures { OnOk result (found.new.items ≡ found.old.items ++ column ∷ []) }
{
    found.push(column)?;
    Ok(())
}

// The vectors that are left.
#[tactic(auto, using(crate::proofs::ColumnsRead::vectors_more, crate::proofs::ColumnsRead::columns_over))]
fn vectors(
    alloc: Global,
    ring: Ring,
    names: &[String],
    words: Words<'_>,
) -> Result<Option<Vec<Vec<Poly>>>, AllocError>
    requires named { length names.now ≡ ring.vars }
    requires some { 1 ≤ ring.vars }
    requires few { ring.vars ≤ 8 }
    ensures value { IfOk result (λ o. option_map (λ v. columns_of v.items) o
        ≡ all_of (map (read_vector ring (map string_bytes names.now)) (left words.entry))) }
    ensures over { IfOk result (λ o. IfSome o (λ v. AreColumnsOver ring v.items)) }
    ensures as_many { IfOk result (λ o. IfSome o (λ v. length v.items ≡ length (left words.entry))) }
{
    let mut found = Vec::new(alloc);
    let mut from = words;
    'vectors: loop {
        let Some((word, rest)) = first_of(from) else {
            return Ok(Some(found));
        };
        let Some(column) = vector(alloc, ring, names, word)? else {
            return Ok(None);
        };
        add(&mut found, column)?;
        from = rest;
    }
}

/// The number of vectors, and these vectors, which are all that is left.
#[tactic(auto, using(crate::proofs::ColumnsRead::counted))]
pub(crate) fn columns(
    alloc: Global,
    ring: Ring,
    names: &[String],
    words: Words<'_>,
) -> Result<Option<Vec<Vec<Poly>>>, AllocError>
    requires named { length names.now ≡ ring.vars }
    requires some { 1 ≤ ring.vars }
    requires few { ring.vars ≤ 8 }
    ensures value { IfOk result (λ o. option_map (λ v. columns_of v.items) o ≡ counted_vectors ring (map string_bytes names.now) (left words.entry)) }
    ensures over { IfOk result (λ o. IfSome o (λ v. AreColumnsOver ring v.items)) }
{
    let Some((count, rest)) = number(words) else {
        return Ok(None);
    };
    let Some(found) = vectors(alloc, ring, names, rest)? else {
        return Ok(None);
    };
    if found.as_slice().len() as u64 != count {
        return Ok(None);
    }
    Ok(Some(found))
}
