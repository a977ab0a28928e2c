// Logs of graphs of three polynomials, and what comes of them, found by hand.
ghost use Rattle.std.specs.Prelude.{All, IfOk, ◌≡◌, length};
ghost use Rattle.fm_poly.specs.Polys.{IsTermOf};

use crate::{Replayed, replay_log};
use fm_complete::{Entry, Start};
use fm_gfp::Prime;
use fm_mono::{EXPONENT_BOUND, Mono, Order};
use fm_poly::{Poly, Ring, Term};
use fm_vec::Vector;
use std::alloc::{AllocError, Global};
use std::test::Fail;

// Terms in x and y: both exponents and the coefficient.
type Listed = ([u32; 2], u64);

// An entry of a log.
#[derive(Clone, Copy)]
struct Line<'a> {
    start: Start,
    by: &'a [u32],
    keep: bool,
}

// What comes of a log: how many members, or how many entries stand before the bad one and whether an exponent passes the bound.
#[derive(Clone, Copy, PartialEq, Eq)]
enum Outcome {
    Members(usize),
    Unfinished,
    Bad(usize, bool),
}

// The monomial with these exponents, none of which passes the bound.
#[tactic(auto, using(fm_mono::proofs::Bounds::within_more))]
fn mono(exponents: [u32; 2]) -> Mono
    ensures { length result ≡ 2 }
{
    let [x, y] = exponents;
    Mono::of(&[x.min(EXPONENT_BOUND), y.min(EXPONENT_BOUND)])
}

fn poly(alloc: Global, ring: Ring, list: &[Listed]) -> Result<Poly, AllocError>
    requires { ring.vars ≡ 2 }
    ensures { IfOk result (λ f. f.ring ≡ ring) }
{
    let mut terms = Vec::new(alloc);
    for t in list {
        terms.push(Term {
            mono: mono(t.0),
            coeff: ring.prime.element(t.1),
        })?;
    }
    let f = Poly::from_terms(alloc, ring, &terms)?;
    Ok(f)
}

// The column (f; a; b; c).
fn column(alloc: Global, ring: Ring, f: &[Listed], unit: [u64; 3]) -> Result<Vector, AllocError>
    requires { ring.vars ≡ 2 }
    ensures ring { IfOk result (λ v. v.ring ≡ ring) }
    ensures rows { IfOk result (λ v. v.rows ≡ 4) }
{
    let [a, b, c] = unit;
    let entries = [
        poly(alloc, ring, f)?,
        poly(alloc, ring, &[([0, 0], a)])?,
        poly(alloc, ring, &[([0, 0], b)])?,
        poly(alloc, ring, &[([0, 0], c)])?,
    ];
    let v = Vector::from_column(alloc, ring, &entries)?;
    Ok(v)
}

fn log_of(alloc: Global, lines: &[Line]) -> Result<Vec<Entry>, AllocError> {
    let mut log = Vec::new(alloc);
    for line in lines {
        log.push(Entry {
            start: line.start,
            by: Vec::from_slice(alloc, line.by)?,
            keep: line.keep,
        })?;
    }
    Ok(log)
}

// What comes of the log for the graph of the row (f, g, h).
fn came_of(
    alloc: Global,
    ring: Ring,
    row: [&[Listed]; 3],
    lines: &[Line],
) -> Result<Outcome, AllocError>
    requires { ring.vars ≡ 2 }
{
    let [f, g, h] = row;
    let first = column(alloc, ring, f, [1, 0, 0])?;
    let second = column(alloc, ring, g, [0, 1, 0])?;
    let third = column(alloc, ring, h, [0, 0, 1])?;
    let inputs = [first, second, third];
    let log = log_of(alloc, lines)?;
    match replay_log(alloc, ring, 4, &inputs, &log)? {
        Replayed::Members(members) => Ok(Outcome::Members(members.len())),
        Replayed::Unfinished => Ok(Outcome::Unfinished),
        Replayed::Bad { before, exponents } => Ok(Outcome::Bad(before, exponents)),
    }
}

const fn input(k: u32) -> Line<'static> {
    Line {
        start: Start::Input(k),
        by: &[],
        keep: true,
    }
}

const fn pair(a: u32, b: u32) -> Line<'static> {
    Line {
        start: Start::Pair(a, b),
        by: &[],
        keep: true,
    }
}

const fn zero<'a>(a: u32, b: u32, by: &'a [u32]) -> Line<'a> {
    Line {
        start: Start::Pair(a, b),
        by,
        keep: false,
    }
}

const fn skip(a: u32, b: u32, k: u32) -> Line<'static> {
    Line {
        start: Start::Skip(a, b, k),
        by: &[],
        keep: false,
    }
}

// Of the log for xy, y^2 and x^2 over GF(2).
fn monomials(alloc: Global, lines: &[Line]) -> Result<Outcome, AllocError> {
    let ring = Ring {
        prime: Prime::Two,
        vars: 2,
        order: Order::Grevlex,
    };
    let row: [&[Listed]; 3] = [&[([1, 1], 1)], &[([0, 2], 1)], &[([2, 0], 1)]];
    came_of(alloc, ring, row, lines)
}

// The last pair, after the inputs and three pairs that were kept.
fn with_last(alloc: Global, last: Line) -> Result<Outcome, AllocError> {
    let lines = [
        input(1),
        input(2),
        input(3),
        pair(1, 2),
        pair(1, 3),
        pair(4, 5),
        last,
    ];
    monomials(alloc, &lines)
}

// The last pair is zero by member 6, or skipped by member 1; it isn't zero at once, member 4 doesn't divide it, and there is no member 7.
#[test]
fn a_last_pair_is_zero_or_skipped(rt: HostRuntime) -> Result<(), Fail> {
    let alloc = rt.alloc();
    assert!(rt; with_last(alloc, zero(2, 3, &[6]))? == Outcome::Members(6));
    assert!(rt; with_last(alloc, skip(2, 3, 1))? == Outcome::Members(6));
    for by in [&[] as &[u32], &[4], &[6, 7], &[0]] {
        assert!(rt; with_last(alloc, zero(2, 3, by))? == Outcome::Bad(6, false));
    }
    Ok(())
}

// A pair is left, a skip comes too early, an input is taken twice or isn't there, and a pair is turned round.
#[test]
fn broken_logs_are_refused(rt: HostRuntime) -> Result<(), Fail> {
    let alloc = rt.alloc();
    let left = [
        input(1),
        input(2),
        input(3),
        pair(1, 2),
        pair(1, 3),
        pair(4, 5),
    ];
    assert!(rt; monomials(alloc, &left)? == Outcome::Unfinished);
    let early = [input(1), input(2), input(3), pair(1, 2), skip(2, 3, 1)];
    assert!(rt; monomials(alloc, &early)? == Outcome::Bad(4, false));
    assert!(rt; monomials(alloc, &[input(1), input(1)])? == Outcome::Bad(1, false));
    assert!(rt; monomials(alloc, &[input(4)])? == Outcome::Bad(0, false));
    assert!(rt; monomials(alloc, &[input(1), input(2), pair(2, 1)])? == Outcome::Bad(2, false));
    Ok(())
}

// In lex, y^20000000 would stand in the multiple that cancels the head of the second column.
#[test]
fn the_bound_is_told(rt: HostRuntime) -> Result<(), Fail> {
    let ring = Ring {
        prime: Prime::Five,
        vars: 2,
        order: Order::Lex,
    };
    let f: &[Listed] = &[([1, 0], 1), ([0, 10_000_000], 4)];
    let g: &[Listed] = &[([1, 10_000_000], 1)];
    let reduced = Line {
        start: Start::Input(2),
        by: &[1],
        keep: true,
    };
    assert!(rt;
        came_of(rt.alloc(), ring, [f, g, g], &[input(1), reduced])? == Outcome::Bad(1, true)
    );
    Ok(())
}
