// Vectors in lines.
ghost use Rattle.std.specs.Prelude.{◌≡◌, ◌≤◌, ◌++◌, ◌∷◌, [], IfOk, IfSome, OnOk, length, map, option_map, string_bytes};
ghost use Rattle.fm_words.specs.Options.{all_of};
ghost use Rattle.fm_words.specs.Parts.{parts};
ghost use Rattle.fm_words.specs.declared.mark.Mark.TheVariants.{Comma};
ghost use Rattle.fm_cert.specs.Fields.{entries_of, read_polynomial, read_vector};
ghost use Rattle.fm_vec.specs.Components.{AreOver};

use crate::polynomials::{before_last, polynomial};
use fm_poly::{Poly, Ring};
use fm_words::{Mark, first_part};
use std::alloc::{AllocError, Global};

// Appends a polynomial.
fn add(found: &mut Vec<Poly>, f: Poly) -> Result<(), AllocError>
    ensures { OnOk result (found.new.items ≡ found.old.items ++ f ∷ []) }
{
    found.push(f)?;
    Ok(())
}

// The polynomials between the commas of a text.
#[tactic(auto, using(crate::proofs::GeneratorsRead::entries_more, crate::proofs::GeneratorsRead::over_more))]
fn some_entries(
    alloc: Global,
    ring: Ring,
    names: &[String],
    text: &[u8],
) -> Result<Option<Vec<Poly>>, AllocError>
    requires named { length names.now ≡ ring.vars }
    requires some { 1 ≤ ring.vars }
    requires few { ring.vars ≤ 8 }
    ensures value { IfOk result (λ o. option_map (λ v. v.items) o ≡ all_of (map (read_polynomial ring (map string_bytes names.now)) (parts Comma text.now))) }
    ensures over { IfOk result (λ o. IfSome o (λ v. AreOver ring v.items)) }
{
    let mut found = Vec::new(alloc);
    let mut from = text;
    'entries: loop {
        let (part, more) = first_part(from, Mark::Comma);
        let Some(f) = polynomial(alloc, ring, names, part)? else {
            return Ok(None);
        };
        add(&mut found, f)?;
        let Some(rest) = more else {
            return Ok(Some(found));
        };
        from = rest;
    }
}

// The entries of a vector, which are none where the text is empty.
fn entries(
    alloc: Global,
    ring: Ring,
    names: &[String],
    text: &[u8],
) -> Result<Option<Vec<Poly>>, AllocError>
    requires named { length names.now ≡ ring.vars }
    requires some { 1 ≤ ring.vars }
    requires few { ring.vars ≤ 8 }
    ensures value { IfOk result (λ o. option_map (λ v. v.items) o ≡ entries_of ring (map string_bytes names.now) text.now) }
    ensures over { IfOk result (λ o. IfSome o (λ v. AreOver ring v.items)) }
{
    if text.split_first().is_none() {
        return Ok(Some(Vec::new(alloc)));
    }
    some_entries(alloc, ring, names, text)
}

/// The vector that a word is: its entries in parentheses, with commas between them.
#[tactic(auto, using(crate::proofs::PolynomialsRead::by_inner), unfolding(fm_cert::specs::Fields::read_vector))]
pub(crate) fn vector(
    alloc: Global,
    ring: Ring,
    names: &[String],
    word: &[u8],
) -> Result<Option<Vec<Poly>>, AllocError>
    requires named { length names.now ≡ ring.vars }
    requires some { 1 ≤ ring.vars }
    requires few { ring.vars ≤ 8 }
    ensures value { IfOk result (λ o. option_map (λ v. v.items) o ≡ read_vector ring (map string_bytes names.now) word.now) }
    ensures over { IfOk result (λ o. IfSome o (λ v. AreOver ring v.items)) }
{
    let Some((open, inner)) = word.split_first() else {
        return Ok(None);
    };
    if *open != b'(' {
        return Ok(None);
    }
    let Some(text) = before_last(inner, Mark::Close) else {
        return Ok(None);
    };
    entries(alloc, ring, names, text)
}
