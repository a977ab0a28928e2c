// Completions of graphs of three polynomials, with logs as an independent program prints them.
ghost use Rattle.std.specs.Prelude.{All, IfOk, length, ◌≡◌};
ghost use Rattle.fm_poly.specs.Polys.{IsTermOf};

use crate::{Basis, Entry, Start, complete};
use fm_gfp::Prime;
use fm_mono::{EXPONENT_BOUND, Mono, Order};
use fm_poly::{Poly, Ring, Term};
use fm_run::{Stop, Work};
use fm_vec::Vector;
use std::alloc::{AllocError, Global};
use std::test::Fail;

// Terms in x and y: both exponents and the coefficient.
type Listed = ([u32; 2], u64);

// What an entry of a log shows.
#[derive(Clone, Copy)]
struct Line<'a> {
    start: Start,
    by: &'a [u32],
    keep: bool,
}

// The monomial with these exponents, none of which passes the bound.
#[tactic(auto, using(fm_mono::proofs::Bounds::within_more))]
fn mono(exponents: [u32; 2]) -> Mono
    ensures { length result ≡ 2 }
{
    let [x, y] = exponents;
    Mono::of(&[x.min(EXPONENT_BOUND), y.min(EXPONENT_BOUND)])
}

fn poly(alloc: Global, ring: Ring, list: &[Listed]) -> Result<Poly, AllocError>
    requires { ring.vars ≡ 2 }
    ensures { IfOk result (λ f. f.ring ≡ ring) }
{
    let mut terms = Vec::new(alloc);
    for t in list {
        terms.push(Term {
            mono: mono(t.0),
            coeff: ring.prime.element(t.1),
        })?;
    }
    let f = Poly::from_terms(alloc, ring, &terms)?;
    Ok(f)
}

// The column (f; a; b; c).
fn column(alloc: Global, ring: Ring, f: &[Listed], unit: [u64; 3]) -> Result<Vector, AllocError>
    requires { ring.vars ≡ 2 }
    ensures ring { IfOk result (λ v. v.ring ≡ ring) }
    ensures rows { IfOk result (λ v. v.rows ≡ 4) }
{
    let [a, b, c] = unit;
    let entries = [
        poly(alloc, ring, f)?,
        poly(alloc, ring, &[([0, 0], a)])?,
        poly(alloc, ring, &[([0, 0], b)])?,
        poly(alloc, ring, &[([0, 0], c)])?,
    ];
    let v = Vector::from_column(alloc, ring, &entries)?;
    Ok(v)
}

// The completion of the graph of the row (f, g, h), and the units left.
fn completed(
    alloc: Global,
    ring: Ring,
    f: &[Listed],
    g: &[Listed],
    h: &[Listed],
    units: u32,
) -> Result<(Basis, u32), Stop>
    requires { ring.vars ≡ 2 }
{
    let first = column(alloc, ring, f, [1, 0, 0])?;
    let second = column(alloc, ring, g, [0, 1, 0])?;
    let third = column(alloc, ring, h, [0, 0, 1])?;
    let mut work = Work::new(units);
    let inputs = [&first, &second, &third];
    let basis = complete(alloc, ring, 4, &inputs, &mut work)?;
    Ok((basis, work.left()))
}

fn shows(log: &[Entry], want: &[Line]) -> bool {
    if log.len() != want.len() {
        return false;
    }
    for k in 0..log.len() {
        let entry = &log[k];
        let line = &want[k];
        if entry.start != line.start || entry.by.as_slice() != line.by || entry.keep != line.keep {
            return false;
        }
    }
    true
}

const fn kept(start: Start, by: &[u32]) -> Line {
    Line {
        start,
        by,
        keep: true,
    }
}

const fn skip(a: u32, b: u32, k: u32) -> Line<'static> {
    Line {
        start: Start::Skip(a, b, k),
        by: &[],
        keep: false,
    }
}

fn monomials(alloc: Global, units: u32) -> Result<(Basis, u32), Stop> {
    let ring = Ring {
        prime: Prime::Two,
        vars: 2,
        order: Order::Grevlex,
    };
    completed(
        alloc,
        ring,
        &[([1, 1], 1)],
        &[([0, 2], 1)],
        &[([2, 0], 1)],
        units,
    )
}

// xy, y^2 and x^2 over GF(2).
#[test]
fn a_pair_is_skipped_by_a_head_between(rt: HostRuntime) -> Result<(), Fail> {
    let (basis, left) = monomials(rt.alloc(), 20)?;
    assert!(rt; left == 14);
    assert!(rt; basis.members.len() == 6);
    assert!(rt;
        shows(
            &basis.log,
            &[
                kept(Start::Input(1), &[]),
                kept(Start::Input(2), &[]),
                kept(Start::Input(3), &[]),
                kept(Start::Pair(1, 2), &[]),
                kept(Start::Pair(1, 3), &[]),
                kept(Start::Pair(4, 5), &[]),
                skip(2, 3, 1),
            ]
        )
    );
    Ok(())
}

// Six units are needed: three for the inputs and three for pairs; the skip costs none.
#[test]
fn each_smaller_budget_ends_the_completion(rt: HostRuntime) -> Result<(), Fail> {
    let alloc = rt.alloc();
    for units in 0..6 {
        assert!(rt; matches!(monomials(alloc, units), Err(Stop::Budget)));
    }
    assert!(rt; monomials(alloc, 6)?.1 == 0);
    Ok(())
}

// Whether the completion of the graph of (f, g, h) spends so many units and has this log.
fn gives(
    alloc: Global,
    ring: Ring,
    row: [&[Listed]; 3],
    units: u32,
    want: &[Line],
) -> Result<bool, Stop>
    requires { ring.vars ≡ 2 }
{
    let [f, g, h] = row;
    let (basis, left) = completed(alloc, ring, f, g, h, units)?;
    Ok(left == 0 && shows(&basis.log, want))
}

fn plane(prime: Prime, order: Order) -> Ring
    ensures { result.vars ≡ 2 }
{
    Ring {
        prime,
        vars: 2,
        order,
    }
}

// x^2 + 2y, xy + 1 and y^2 + x over GF(3): a rest is reduced by the first divisor. x^2 + y, xy + 1 and y^3 - xy over GF(31): heads in two
// components, and pairs of later members first.
#[test]
fn logs_are_those_made_by_hand(rt: HostRuntime) -> Result<(), Fail> {
    let alloc = rt.alloc();
    let f: &[Listed] = &[([2, 0], 1), ([0, 1], 2)];
    let g: &[Listed] = &[([1, 1], 1), ([0, 0], 1)];
    let h: &[Listed] = &[([0, 2], 1), ([1, 0], 1)];
    let deglex = [
        kept(Start::Input(1), &[]),
        kept(Start::Input(2), &[]),
        kept(Start::Input(3), &[]),
        kept(Start::Pair(2, 3), &[1]),
        kept(Start::Pair(1, 2), &[3, 4]),
        skip(1, 3, 2),
    ];
    assert!(rt;
        gives(
            alloc,
            plane(Prime::Three, Order::Deglex),
            [f, g, h],
            8,
            &deglex
        )?
    );
    let f: &[Listed] = &[([2, 0], 1), ([0, 1], 1)];
    let h: &[Listed] = &[([0, 3], 1), ([1, 1], 30)];
    let lex = [
        kept(Start::Input(1), &[]),
        kept(Start::Input(2), &[]),
        kept(Start::Input(3), &[2]),
        kept(Start::Pair(2, 3), &[]),
        kept(Start::Pair(2, 4), &[3]),
        skip(3, 4, 2),
        kept(Start::Pair(1, 4), &[2]),
        skip(1, 2, 4),
        skip(1, 3, 2),
    ];
    assert!(rt;
        gives(
            alloc,
            plane(Prime::ThirtyOne, Order::Lex),
            [f, g, h],
            9,
            &lex
        )?
    );
    Ok(())
}

// In lex, y^20000000 would stand in the multiple that cancels the head of the second column: its unit is spent, and the third is not taken up.
#[test]
fn the_bound_ends_a_completion(rt: HostRuntime) -> Result<(), Fail> {
    let ring = Ring {
        prime: Prime::Five,
        vars: 2,
        order: Order::Lex,
    };
    let f: &[Listed] = &[([1, 0], 1), ([0, 10_000_000], 4)];
    let g: &[Listed] = &[([1, 10_000_000], 1)];
    let alloc = rt.alloc();
    assert!(rt; matches!(completed(alloc, ring, f, g, g, 3), Err(Stop::Exponent)));
    assert!(rt; matches!(completed(alloc, ring, f, g, g, 2), Err(Stop::Budget)));
    Ok(())
}
