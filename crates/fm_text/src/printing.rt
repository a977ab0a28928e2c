// The printed form of polynomials.
ghost use Rattle.std.specs.Bool.{MatchBool};
ghost use Rattle.std.specs.Prelude.{OnOk, IfOk, List, if◌then◌else◌, length, map, nat_eq, string_bytes, sum, true, ◌++◌, ◌<◌, ◌∷◌, ◌≡◌};
ghost use Rattle.fm_poly.specs.Polys.{pairs};
ghost use Rattle.fm_text.specs.Printing.{Extends, HaveLength, joined, separator};
ghost use Rattle.fm_words.specs.Parts.{Bytes};
ghost use Rattle.fm_text.specs.Texts.{factor_text, factor_texts, poly_text, term_text};

use fm_mono::Mono;
use fm_poly::{Poly, Term};
use itoa::Buffer;
use std::alloc::AllocError;

/// Appends the printed form of a polynomial. It takes a few steps for each byte that it appends.
pub fn push_poly(names: &[String], f: &Poly, out: &mut Vec<u8>) -> Result<(), AllocError>
    requires { length names.now ≡ f.now.ring.vars }
    ensures ok { OnOk result (out.new.items ≡ out.old.items ++ poly_text (map string_bytes names.now) (pairs f.now.terms)) }
    ensures prefix { Extends out.old.items out.new.items }
{
    push_terms(names, f.terms(), out)
}

/// Appends the printed form of the polynomial with these terms.
fn push_terms(names: &[String], terms: &[Term], out: &mut Vec<u8>) -> Result<(), AllocError>
    requires { HaveLength (length names.now) (pairs terms.now) }
    ensures ok { OnOk result (out.new.items ≡ out.old.items ++ poly_text (map string_bytes names.now) (pairs terms.now)) }
    ensures prefix { Extends out.old.items out.new.items }
{
    let Some((first, rest)) = terms.split_first() else {
        out.push(b'0')?;
        return Ok(());
    };
    push_term(names, *first, out)?;
    push_more_terms(names, rest, out)?;
    Ok(())
}

/// Appends these terms, each after a `+`.
fn push_more_terms(names: &[String], terms: &[Term], out: &mut Vec<u8>) -> Result<(), AllocError>
    requires { HaveLength (length names.now) (pairs terms.now) }
    ensures ok { OnOk result (out.new.items ≡ out.old.items ++ joined 43 true (map (term_text (map string_bytes names.now)) (pairs terms.now))) }
    ensures prefix { Extends out.old.items out.new.items }
{
    let mut left = terms;
    'terms: loop {
        let Some((term, rest)) = left.split_first() else {
            return Ok(());
        };
        out.push(b'+')?;
        push_term(names, *term, out)?;
        left = rest;
    }
}

fn push_term(names: &[String], term: Term, out: &mut Vec<u8>) -> Result<(), AllocError>
    requires { length term.mono ≡ length names.now }
    ensures ok { OnOk result (out.new.items ≡ out.old.items ++ term_text (map string_bytes names.now) (term.mono, term.coeff)) }
    ensures prefix { Extends out.old.items out.new.items }
{
    if leaves_out_coefficient(&term) {
        push_factors(names, &term.mono, false, out)?;
        return Ok(());
    }
    let mut digits = Buffer::new();
    out.extend_from_slice(digits.format(term.coeff.number()).as_bytes())?;
    push_factors(names, &term.mono, true, out)?;
    Ok(())
}

/// A coefficient 1 is left out, unless the term is constant.
fn leaves_out_coefficient(term: &Term) -> bool
    ensures { MatchBool result ((term.now.coeff ≡ 1) × (0 < sum term.now.mono)) (term.now.coeff ≡ 1 → sum term.now.mono ≡ 0) }
{
    term.coeff.number() == 1 && term.mono.degree() > 0
}

/// Appends the factors of a monomial, each after a `*` where something stands before it.
fn push_factors(
    names: &[String],
    mono: &Mono,
    started: bool,
    out: &mut Vec<u8>,
) -> Result<(), AllocError>
    ensures ok { OnOk result (out.new.items ≡ out.old.items ++ joined 42 started (factor_texts (map string_bytes names.now) mono.now)) }
    ensures prefix { Extends out.old.items out.new.items }
{
    let mut left = names;
    let mut some = started;
    for k in 0..mono.vars() {
        let Some((name, rest)) = left.split_first() else {
            return Ok(());
        };
        some = push_factor(name.as_str(), mono.exponent(k), some, out)?;
        left = rest;
    }
    Ok(())
}

/// Appends a factor, unless its exponent is 0, and tells whether something stands before the next one.
fn push_factor(
    name: &str,
    exponent: u32,
    started: bool,
    out: &mut Vec<u8>,
) -> Result<bool, AllocError>
    ensures ok { IfOk result (λ now. (fs : List Bytes) → out.new.items ++ joined 42 now fs ≡ out.old.items ++ joined 42 started (if nat_eq exponent 0 then fs else (factor_text name.now exponent ∷ fs))) }
    ensures prefix { Extends out.old.items out.new.items }
{
    if exponent == 0 {
        return Ok(started);
    }
    push_separator(started, out)?;
    push_power(name, exponent, out)?;
    Ok(true)
}

/// Appends a `*` where something stands before the next factor.
fn push_separator(started: bool, out: &mut Vec<u8>) -> Result<(), AllocError>
    ensures ok { OnOk result (out.new.items ≡ out.old.items ++ separator started) }
    ensures prefix { Extends out.old.items out.new.items }
{
    if started {
        out.push(b'*')?;
    }
    Ok(())
}

fn push_power(name: &str, exponent: u32, out: &mut Vec<u8>) -> Result<(), AllocError>
    ensures ok { OnOk result (out.new.items ≡ out.old.items ++ factor_text name.now exponent) }
    ensures prefix { Extends out.old.items out.new.items }
{
    out.extend_from_slice(name.as_bytes())?;
    if exponent == 1 {
        return Ok(());
    }
    out.push(b'^')?;
    let mut digits = Buffer::new();
    out.extend_from_slice(digits.format(exponent).as_bytes())?;
    Ok(())
}
