// Columns of polynomials as vectors, and back.
ghost use Rattle.std.specs.Prelude.{IfOk, OnOk, drop, length, take, ◌++◌, ◌<◌, ◌^◌, ◌≡◌, ◌≤◌};
ghost use Rattle.fm_vec.specs.Components.{AreOver, column_from, placed};
ghost use Rattle.fm_vec.specs.Components as parts;
ghost use Rattle.fm_term.specs.Places.{Falls};
ghost use Rattle.fm_vec.specs.Steps.{AreFrom, front_count};
ghost use Rattle.fm_vec.specs.Steps as steps;
ghost use Rattle.fm_term.specs.Falling.{AreTerms};
ghost use Rattle.fm_vec.specs.Vectors.{IsVector};

use fm_poly::{Poly, Ring, Term};
use fm_term::VTerm;
use std::alloc::{AllocError, Global};

/// The terms of the polynomials, each in the component of its polynomial.
pub(crate) fn column_terms(
    alloc: Global,
    ring: Ring,
    column: &[Poly],
) -> Result<Vec<VTerm>, AllocError>
    requires few { length column.now < 2 ^ 32 }
    requires over { AreOver ring column.now }
    ensures value { IfOk result (λ out. out.items ≡ parts.column_terms 1 column.now) }
    ensures vector { IfOk result (λ out. IsVector ring (length column.now) out.items) }
{
    let mut out = Vec::new(alloc);
    let mut component = 0;
    let mut column = column;
    'column: loop {
        let Some((f, later)) = column.split_first() else {
            return Ok(out);
        };
        component += 1;
        push_placed(component, f.terms(), &mut out)?;
        column = later;
    }
}

/// Appends the terms in a component.
fn push_placed(component: u32, terms: &[Term], out: &mut Vec<VTerm>) -> Result<(), AllocError>
    ensures { OnOk result (out.new.items ≡ out.old.items ++ placed component terms.now) }
{
    let mut terms = terms;
    'terms: loop {
        let Some((t, later)) = terms.split_first() else {
            return Ok(());
        };
        out.push(VTerm {
            component,
            mono: t.mono,
            coeff: t.coeff,
        })?;
        terms = later;
    }
}

/// The components as polynomials, in one pass.
pub(crate) fn column_of(
    alloc: Global,
    ring: Ring,
    rows: u32,
    terms: &[VTerm],
) -> Result<Vec<Poly>, AllocError>
    requires falls { Falls ring.order terms.now }
    requires proper { AreTerms ring.prime ring.vars terms.now }
    requires within { AreFrom 1 terms.now }
    ensures { IfOk result (λ out. out.items ≡ column_from ring rows 1 terms.now) }
{
    let mut out = Vec::with_capacity(alloc, rows as usize)?;
    let mut terms = terms;
    for k in 0..rows {
        let (own, later) = terms.split_at(length_in(k + 1, terms));
        out.push(Poly::from_canonical(ring, without_component(alloc, own)?))?;
        terms = later;
    }
    Ok(out)
}

/// How many terms at the front are in a component.
fn length_in(component: u32, terms: &[VTerm]) -> usize
    ensures count { result ≡ front_count component terms.now }
    ensures within { result ≤ length terms.now }
{
    let mut count = 0;
    let mut terms = terms;
    'terms: loop {
        let Some((t, later)) = terms.split_first() else {
            return count;
        };
        if t.component != component {
            return count;
        }
        count += 1;
        terms = later;
    }
}

fn without_component(alloc: Global, terms: &[VTerm]) -> Result<Vec<Term>, AllocError>
    ensures { IfOk result (λ out. out.items ≡ steps.unplaced terms.now) }
{
    let mut out = Vec::with_capacity(alloc, terms.len())?;
    let mut terms = terms;
    'terms: loop {
        let Some((t, later)) = terms.split_first() else {
            return Ok(out);
        };
        out.push(Term {
            mono: t.mono,
            coeff: t.coeff,
        })?;
        terms = later;
    }
}
