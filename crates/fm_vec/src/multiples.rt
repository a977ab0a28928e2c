// Sums with multiples, by one merge.
ghost use Rattle.std.specs.Prelude.{IfNone, IfOk, IfSome, IsErrOf, OnOk, drop, false, length, take, true, ◌++◌, ◌<◌, ◌≡◌, ◌≤◌};
ghost use Rattle.fm_tuple.specs.Tuple.{tuple_difference, tuple_maximum, tuple_sum};
ghost use Rattle.fm_gfp.specs.Primes.{prime_value};
ghost use Rattle.fm_mono.specs.Bounded.{is_bounded};
ghost use Rattle.fm_term.specs.Multiples.{multiple, multiple_term};
ghost use Rattle.fm_vec.specs.Multiples.{multiple_fits, plus_multiple, s_vector_fits, s_vector_of, sum_term};
ghost use Rattle.fm_term.specs.Places.{Falls};
ghost use Rattle.fm_vec.specs.Steps.{count_above, top_part, under_part};
ghost use Rattle.fm_term.specs.Falling.{AreTerms, IsTerm};
ghost use Rattle.fm_vec.specs.Vectors.{HaveSVector};

use fm_gfp::Gf;
use fm_mono::{Mono, Order};
use fm_poly::{PolyError, Ring};
use fm_term::VTerm;
use std::alloc::{AllocError, Global};
use std::cmp::Ordering;

/// With the heads t of f and u of g and L their least common multiple: (L / t) * f - (L / u) * g.
pub(crate) fn s_terms(
    alloc: Global,
    ring: Ring,
    f: &[VTerm],
    g: &[VTerm],
) -> Result<Vec<VTerm>, PolyError>
    requires f_falls { Falls ring.order f.now }
    requires f_terms { AreTerms ring.prime ring.vars f.now }
    requires g_falls { Falls ring.order g.now }
    requires g_terms { AreTerms ring.prime ring.vars g.now }
    requires heads { HaveSVector f.now g.now }
    ensures value { IfOk result (λ out. out.items ≡ s_vector_of ring f.now g.now) }
    ensures fits { OnOk result (s_vector_fits f.now g.now ≡ true) }
    ensures exponent { IsErrOf result PolyError.Exponent → s_vector_fits f.now g.now ≡ false }
{
    let Some((t, _)) = f.split_first() else {
        unreachable!();
    };
    let Some((u, _)) = g.split_first() else {
        unreachable!();
    };
    let first = multiplied(alloc, ring, one(ring), cofactor(t.mono, u.mono), f)?;
    let buffer = Vec::with_capacity(alloc, first.len())?;
    let minus_one = ring.prime.neg(one(ring));
    sum_with_multiple(ring, buffer, minus_one, cofactor(u.mono, t.mono), g, &first)
}

fn one(ring: Ring) -> Gf
    ensures value { result ≡ 1 }
    ensures below { result < prime_value ring.prime }
{
    ring.prime.element(1)
}

/// The monomial by which t becomes the least common multiple of t and u.
fn cofactor(t: Mono, u: Mono) -> Mono
    requires { length t ≡ length u }
    ensures value { result ≡ tuple_difference (tuple_maximum t u) t }
    ensures vars { length result ≡ length t }
{
    t.lcm(u).quotient(t)
}

/// d * m * g.
fn multiplied(
    alloc: Global,
    ring: Ring,
    d: Gf,
    m: Mono,
    g: &[VTerm],
) -> Result<Vec<VTerm>, PolyError>
    requires some { 0 < d }
    requires below { d < prime_value ring.prime }
    requires vars { length m ≡ ring.vars }
    requires falls { Falls ring.order g.now }
    requires terms { AreTerms ring.prime ring.vars g.now }
    ensures value { IfOk result (λ out. out.items ≡ multiple ring.prime d m g.now) }
    ensures falls { IfOk result (λ out. Falls ring.order out.items) }
    ensures terms { IfOk result (λ out. AreTerms ring.prime ring.vars out.items) }
    ensures fits { OnOk result (multiple_fits m g.now ≡ true) }
    ensures exponent { IsErrOf result PolyError.Exponent → multiple_fits m g.now ≡ false }
{
    let mut out = Vec::with_capacity(alloc, g.len())?;
    let mut g = g;
    'terms: loop {
        let Some((t, later)) = g.split_first() else {
            return Ok(out);
        };
        let Some(next) = times(ring, d, m, t) else {
            return Err(PolyError::Exponent);
        };
        out.push(next)?;
        g = later;
    }
}

/// f plus d * m * g, written into a buffer whose content is dropped.
pub(crate) fn sum_with_multiple(
    ring: Ring,
    buffer: Vec<VTerm>,
    d: Gf,
    m: Mono,
    g: &[VTerm],
    f: &[VTerm],
) -> Result<Vec<VTerm>, PolyError>
    requires some { 0 < d }
    requires below { d < prime_value ring.prime }
    requires vars { length m ≡ ring.vars }
    requires g_falls { Falls ring.order g.now }
    requires g_terms { AreTerms ring.prime ring.vars g.now }
    requires f_falls { Falls ring.order f.now }
    requires f_terms { AreTerms ring.prime ring.vars f.now }
    ensures value { IfOk result (λ out. out.items ≡ plus_multiple ring d m g.now f.now) }
    ensures fits { OnOk result (multiple_fits m g.now ≡ true) }
    ensures exponent { IsErrOf result PolyError.Exponent → multiple_fits m g.now ≡ false }
{
    let mut out = buffer;
    out.clear();
    add_multiple(ring, d, m, g, f, &mut out)?;
    Ok(out)
}

/// Appends f plus d * m * g, in one pass over both.
fn add_multiple(
    ring: Ring,
    d: Gf,
    m: Mono,
    g: &[VTerm],
    f: &[VTerm],
    out: &mut Vec<VTerm>,
) -> Result<(), PolyError>
    requires some { 0 < d }
    requires below { d < prime_value ring.prime }
    requires vars { length m ≡ ring.vars }
    requires g_falls { Falls ring.order g.now }
    requires g_terms { AreTerms ring.prime ring.vars g.now }
    requires f_falls { Falls ring.order f.now }
    requires f_terms { AreTerms ring.prime ring.vars f.now }
    ensures value { OnOk result (out.new.items ≡ out.old.items ++ plus_multiple ring d m g.now f.now) }
    ensures fits { OnOk result (multiple_fits m g.now ≡ true) }
    ensures exponent { IsErrOf result PolyError.Exponent → multiple_fits m g.now ≡ false }
{
    let mut g = g;
    let mut f = f;
    'turns: loop {
        let Some((y, later)) = g.split_first() else {
            out.extend_from_slice(f)?;
            return Ok(());
        };
        let Some(t) = times(ring, d, m, y) else {
            return Err(PolyError::Exponent);
        };
        f = copy_above(ring, &t, f, out)?;
        f = push_top(ring, &t, f, out)?;
        g = later;
    }
}

/// Whether no exponent of m * g passes the bound.
pub(crate) fn fits(ring: Ring, m: Mono, g: &[VTerm]) -> bool
    requires vars { length m ≡ ring.vars }
    requires terms { AreTerms ring.prime ring.vars g.now }
    ensures { result ≡ multiple_fits m g.now }
{
    let mut g = g;
    'terms: loop {
        let Some((t, later)) = g.split_first() else {
            return true;
        };
        if m.times(t.mono).is_none() {
            return false;
        }
        g = later;
    }
}

/// d * m * t, where no exponent of it passes the bound.
#[inline]
fn times(ring: Ring, d: Gf, m: Mono, t: &VTerm) -> Option<VTerm>
    requires some { 0 < d }
    requires below { d < prime_value ring.prime }
    requires vars { length m ≡ ring.vars }
    requires term { IsTerm ring.prime ring.vars t.now }
    ensures value { IfSome result (λ u. u ≡ multiple_term ring.prime d m t.now) }
    ensures proper { IfSome result (λ u. IsTerm ring.prime ring.vars u) }
    ensures fits { IfSome result (λ u. is_bounded (tuple_sum m t.now.mono) ≡ true) }
    ensures exponent { IfNone result (is_bounded (tuple_sum m t.now.mono) ≡ false) }
{
    let mono = m.times(t.mono)?;
    let coeff = ring.prime.mul(d, t.coeff);
    Some(VTerm {
        component: t.component,
        mono,
        coeff,
    })
}

/// Appends the terms that are greater than t, and gives the others.
fn copy_above<'a>(
    ring: Ring,
    t: &VTerm,
    f: &'a [VTerm],
    out: &mut Vec<VTerm>,
) -> Result<&'a [VTerm], AllocError>
    requires term { IsTerm ring.prime ring.vars t.now }
    requires terms { AreTerms ring.prime ring.vars f.now }
    ensures above { OnOk result (out.new.items ≡ out.old.items ++ take (count_above ring.order t.now f.entry.now) f.entry.now) }
    ensures rest { IfOk result (λ rest. rest.now ≡ drop (count_above ring.order t.now f.entry.now) f.entry.now) }
{
    let (above, rest) = f.split_at(length_above(ring, t, f));
    out.extend_from_slice(above)?;
    Ok(rest)
}

/// How many terms at the front are greater than t.
fn length_above(ring: Ring, t: &VTerm, f: &[VTerm]) -> usize
    requires term { IsTerm ring.prime ring.vars t.now }
    requires terms { AreTerms ring.prime ring.vars f.now }
    ensures count { result ≡ count_above ring.order t.now f.now }
    ensures within { result ≤ length f.now }
{
    let mut count = 0;
    let mut f = f;
    'terms: loop {
        let Some((x, later)) = f.split_first() else {
            return count;
        };
        if x.compare(ring.order, t) != Ordering::Greater {
            return count;
        }
        count += 1;
        f = later;
    }
}

/// Appends t, which no term is greater than, or the sum with a first term of its place; gives the terms after it.
fn push_top<'a>(
    ring: Ring,
    t: &VTerm,
    f: &'a [VTerm],
    out: &mut Vec<VTerm>,
) -> Result<&'a [VTerm], AllocError>
    requires term { IsTerm ring.prime ring.vars t.now }
    requires terms { AreTerms ring.prime ring.vars f.now }
    ensures top { OnOk result (out.new.items ≡ out.old.items ++ top_part ring t.now f.entry.now) }
    ensures rest { IfOk result (λ rest. rest.now ≡ under_part ring.order t.now f.entry.now) }
{
    let Some((x, later)) = f.split_first() else {
        out.push(*t)?;
        return Ok(f);
    };
    match x.compare(ring.order, t) {
        Ordering::Equal => {
            push_sum(ring, x, t, out)?;
            Ok(later)
        }
        Ordering::Less | Ordering::Greater => {
            out.push(*t)?;
            Ok(f)
        }
    }
}

/// Appends the sum of two terms of one place, where it isn't zero.
fn push_sum(ring: Ring, x: &VTerm, t: &VTerm, out: &mut Vec<VTerm>) -> Result<(), AllocError>
    requires x_below { x.now.coeff < prime_value ring.prime }
    requires t_below { t.now.coeff < prime_value ring.prime }
    ensures { OnOk result (out.new.items ≡ out.old.items ++ sum_term ring x.now t.now) }
{
    let coeff = ring.prime.add(x.coeff, t.coeff);
    if coeff.number() != 0 {
        out.push(VTerm {
            component: t.component,
            mono: t.mono,
            coeff,
        })?;
    }
    Ok(())
}
