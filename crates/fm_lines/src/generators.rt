// Generators in lines.
ghost use Rattle.std.specs.Prelude.{◌≡◌, ◌≤◌, ◌++◌, ◌∷◌, [], IfOk, IfSome, OnOk, length, map, option_map, string_bytes};
ghost use Rattle.fm_cert.specs.Fields.{nonzero};
ghost use Rattle.fm_vec.specs.Components.{AreOver};
ghost use Rattle.fm_lines.specs.Left.{left};
ghost use Rattle.fm_lines.specs.GeneratorWords.{generator_of, kept_generators};

use crate::polynomials::{before_last, polynomial};
use crate::words::{Words, first_of, is_end};
use fm_poly::{Poly, Ring};
use fm_words::Mark;
use std::alloc::{AllocError, Global};

// The generator that a word is; a comma stands after each but the last.
fn generator(
    alloc: Global,
    ring: Ring,
    names: &[String],
    word: &[u8],
    last: bool,
) -> Result<Option<Poly>, AllocError>
    requires named { length names.now ≡ ring.vars }
    requires some { 1 ≤ ring.vars }
    requires few { ring.vars ≤ 8 }
    ensures value { IfOk result (λ o. o ≡ generator_of ring (map string_bytes names.now) last word.now) }
    ensures over { IfOk result (λ o. IfSome o (λ f. f.ring ≡ ring)) }
{
    if last {
        return polynomial(alloc, ring, names, word);
    }
    let Some(text) = before_last(word, Mark::Comma) else {
        return Ok(None);
    };
    polynomial(alloc, ring, names, text)
}

// Appends a polynomial that isn't zero.
fn keep(kept: &mut Vec<Poly>, f: Poly) -> Result<(), AllocError>
    ensures { OnOk result (kept.new.items ≡ kept.old.items ++ nonzero (f ∷ [])) }
{
    if f.terms().split_first().is_none() {
        return Ok(());
    }
    kept.push(f)?;
    Ok(())
}

/// The generators that are left but zeros.
#[tactic(auto, using(crate::proofs::GeneratorsRead::step, crate::proofs::GeneratorsRead::more, crate::proofs::GeneratorsRead::over_kept))]
pub(crate) fn generators(
    alloc: Global,
    ring: Ring,
    names: &[String],
    words: Words<'_>,
) -> Result<Option<Vec<Poly>>, AllocError>
    requires named { length names.now ≡ ring.vars }
    requires some { 1 ≤ ring.vars }
    requires few { ring.vars ≤ 8 }
    ensures value { IfOk result (λ o. option_map (λ v. v.items) o ≡ kept_generators ring (map string_bytes names.now) (left words.entry)) }
    ensures over { IfOk result (λ o. IfSome o (λ v. AreOver ring v.items)) }
{
    let mut kept = Vec::new(alloc);
    let mut from = words;
    'generators: loop {
        let Some((word, rest)) = first_of(from) else {
            return Ok(None);
        };
        let last = is_end(rest);
        let Some(f) = generator(alloc, ring, names, word, last)? else {
            return Ok(None);
        };
        keep(&mut kept, f)?;
        if last {
            return Ok(Some(kept));
        }
        from = rest;
    }
}
