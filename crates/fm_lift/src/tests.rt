// Lifts along two matrices against values found by hand.
ghost use Rattle.std.specs.Prelude.{IfOk, length, ◌≡◌, ◌≤◌};
ghost use Rattle.fm_mat.specs.Matrices.{AreColumns};
ghost use Rattle.fm_vec.specs.Components.{AreOver};

use crate::{frobenius_lift, over_identity};
use fm_gfp::Prime;
use fm_mat::{Column, Matrix};
use fm_mono::{EXPONENT_BOUND, Mono, Order};
use fm_poly::{Poly, Ring, Term};
use fm_run::{Side, Stop, Stopped, Work};
use fm_syz::{Graph, graph_of};
use std::alloc::{AllocError, Global};
use std::test::Fail;

// A monomial in x and y with its coefficient, or zero.
type Entry = ([u32; 2], u64);

// The number of rows, and the columns.
type Given = (u32, &'static [&'static [Entry]]);

// The matrices of a lift and the units left, or the number of the task that stops.
#[derive(Clone, Copy)]
enum End {
    Lifts(&'static [Given], u32),
    Stops(u64, Stop),
}

struct Row {
    prime: Prime,
    first: Given,
    second: Given,
    units: u32,
    end: End,
}

const ONE: Entry = ([0, 0], 1);

const ZERO: Entry = ([0, 0], 0);

const X: Entry = ([1, 0], 1);

const Y: Entry = ([0, 1], 1);

const XY: Entry = ([1, 1], 1);

const SQUARE: Entry = ([2, 2], 1);

const HIGH: Entry = ([8_388_608, 0], 1);

const UNIT: Given = (1, &[&[ONE]]);

// The kernel of (xy) has no columns.
const NONE: Given = (1, &[]);

const CROSSING: Given = (1, &[&[XY]]);

const POINT: Given = (1, &[&[X], &[Y]]);

// The kernel of (x, y) in characteristic 2.
const KERNEL: Given = (2, &[&[Y, X]]);

const LINE: Given = (1, &[&[X]]);

const BY_Y: End = End::Lifts(&[UNIT, (1, &[&[Y]])], 0);

const STOPPED: End = End::Stops(1, Stop::Budget);

const ROWS: &[Row] = &[
    Row {
        prime: Prime::Three,
        first: CROSSING,
        second: NONE,
        units: 2,
        end: End::Lifts(&[UNIT, (1, &[&[SQUARE]]), (0, &[])], 0),
    },
    Row {
        prime: Prime::Three,
        first: CROSSING,
        second: NONE,
        units: 1,
        end: End::Stops(1, Stop::Budget),
    },
    Row {
        prime: Prime::Two,
        first: POINT,
        second: KERNEL,
        units: 7,
        end: End::Lifts(&[UNIT, (2, &[&[X, ZERO], &[ZERO, Y]]), (1, &[&[XY]])], 1),
    },
    Row {
        prime: Prime::Two,
        first: POINT,
        second: KERNEL,
        units: 3,
        end: End::Stops(1, Stop::Budget),
    },
    Row {
        prime: Prime::Two,
        first: POINT,
        second: KERNEL,
        units: 5,
        end: End::Stops(2, Stop::Budget),
    },
    Row {
        prime: Prime::Two,
        first: (1, &[&[HIGH]]),
        second: NONE,
        units: 0,
        end: End::Stops(1, Stop::Exponent),
    },
];

// The monomial with these exponents, none of which passes the bound.
#[tactic(auto, using(fm_mono::proofs::Bounds::within_more))]
fn mono(exponents: [u32; 2]) -> Mono
    ensures { length result ≡ 2 }
{
    let [x, y] = exponents;
    Mono::of(&[x.min(EXPONENT_BOUND), y.min(EXPONENT_BOUND)])
}

fn poly(alloc: Global, ring: Ring, entry: Entry) -> Result<Poly, AllocError>
    requires { ring.vars ≡ 2 }
    ensures { IfOk result (λ f. f.ring ≡ ring) }
{
    let term = Term {
        mono: mono(entry.0),
        coeff: ring.prime.element(entry.1),
    };
    let f = Poly::from_terms(alloc, ring, &[term])?;
    Ok(f)
}

fn column(alloc: Global, ring: Ring, rows: u32, entries: &[Entry]) -> Result<Vec<Poly>, AllocError>
    requires { ring.vars ≡ 2 }
    ensures over { IfOk result (λ out. AreOver ring out.items) }
    ensures rows { IfOk result (λ out. length out.items ≡ rows) }
{
    let mut out = Vec::new(alloc);
    for i in 0..rows {
        let Some(entry) = entries.get(i as usize) else {
            return Err(AllocError);
        };
        out.push(poly(alloc, ring, *entry)?)?;
    }
    Ok(out)
}

fn columns_of(
    alloc: Global,
    ring: Ring,
    rows: u32,
    columns: &[&[Entry]],
) -> Result<Vec<Column>, AllocError>
    requires { ring.vars ≡ 2 }
    ensures columns { IfOk result (λ out. AreColumns ring rows out.items) }
    ensures count { IfOk result (λ out. length out.items ≡ length columns.now) }
{
    let mut out = Vec::new(alloc);
    for j in 0..columns.len() {
        out.push(Column::new(column(alloc, ring, rows, columns[j])?))?;
    }
    Ok(out)
}

fn matrix(alloc: Global, ring: Ring, given: Given) -> Result<Matrix, AllocError>
    requires { ring.vars ≡ 2 }
    ensures ring { IfOk result (λ m. m.ring ≡ ring) }
    ensures rows { IfOk result (λ m. m.rows ≤ 9) }
    ensures few { IfOk result (λ m. length m.columns ≤ 9) }
{
    let (rows, columns) = given;
    if rows > 9 || columns.len() > 9 {
        return Err(AllocError);
    }
    let columns = columns_of(alloc, ring, rows, columns)?;
    Ok(Matrix::new(ring, rows, columns))
}

fn graph(alloc: Global, ring: Ring, given: Given) -> Result<Graph, Stop>
    requires { ring.vars ≡ 2 }
    ensures { IfOk result (λ g. g.matrix.ring ≡ ring) }
{
    let m = matrix(alloc, ring, given)?;
    graph_of(alloc, m, &mut Work::new(99))
}

// The lift, and the units left; none where the matrices do not fit.
fn lifted(
    alloc: Global,
    ring: Ring,
    first: &Graph,
    second: &Graph,
    units: u32,
) -> Option<(Result<Vec<Matrix>, Stopped>, u32)>
    requires two { ring.vars ≡ 2 }
    requires first { first.now.matrix.ring ≡ ring }
    requires second { second.now.matrix.ring ≡ ring }
{
    if first.rows() != 1 || second.rows() != first.width() {
        return None;
    }
    let mut work = Work::new(units);
    let end = frobenius_lift(alloc, Side::Alone, ring, &[first, second], &mut work);
    Some((end, work.left()))
}

fn is_entry(ring: Ring, f: &Poly, entry: Entry) -> bool
    requires { ring.vars ≡ 2 }
{
    let term = Term {
        mono: mono(entry.0),
        coeff: ring.prime.element(entry.1),
    };
    match f.terms() {
        [] => entry.1 == 0,
        [t] => entry.1 != 0 && *t == term,
        _ => false,
    }
}

fn is_column(ring: Ring, fs: &[Poly], entries: &[Entry]) -> bool
    requires { ring.vars ≡ 2 }
{
    if fs.len() != entries.len() {
        return false;
    }
    for i in 0..fs.len() {
        if !is_entry(ring, &fs[i], entries[i]) {
            return false;
        }
    }
    true
}

fn is_matrix(ring: Ring, m: &Matrix, given: Given) -> bool
    requires { ring.vars ≡ 2 }
{
    let columns = m.columns();
    if m.rows() != given.0 || columns.len() != given.1.len() {
        return false;
    }
    for j in 0..columns.len() {
        if !is_column(ring, columns[j].entries(), given.1[j]) {
            return false;
        }
    }
    true
}

fn are_matrices(ring: Ring, thetas: &[Matrix], matrices: &[Given]) -> bool
    requires { ring.vars ≡ 2 }
{
    if thetas.len() != matrices.len() {
        return false;
    }
    for j in 0..thetas.len() {
        if !is_matrix(ring, &thetas[j], matrices[j]) {
            return false;
        }
    }
    true
}

fn is_end(ring: Ring, end: &Result<Vec<Matrix>, Stopped>, left: u32, want: &End) -> bool
    requires { ring.vars ≡ 2 }
{
    match (end, want) {
        (Ok(thetas), End::Lifts(matrices, units)) => {
            left == *units && are_matrices(ring, thetas, matrices)
        }
        (Err(stopped), End::Stops(number, stop)) => {
            stopped.task.number == *number && stopped.stop == *stop
        }
        _ => false,
    }
}

fn ends_so(alloc: Global, row: &Row) -> Result<bool, Stop> {
    let ring = Ring {
        prime: row.prime,
        vars: 2,
        order: Order::Grevlex,
    };
    let first = graph(alloc, ring, row.first)?;
    let second = graph(alloc, ring, row.second)?;
    match lifted(alloc, ring, &first, &second, row.units) {
        Some((end, left)) => Ok(is_end(ring, &end, left, &row.end)),
        None => Ok(false),
    }
}

#[test]
fn lifts_of_frobenius(rt: HostRuntime) -> Result<(), Fail> {
    for (k, row) in ROWS.iter().enumerate() {
        assert!(rt; matches!(ends_so(rt.alloc(), row), Ok(true)), "row {k}");
    }
    Ok(())
}

// The lift of the identity along one matrix of each of two resolutions, and the units left.
fn identity_lifted(
    alloc: Global,
    ring: Ring,
    d: &Matrix,
    g: &Graph,
    units: u32,
) -> Option<(Result<Vec<Matrix>, Stopped>, u32)>
    requires two { ring.vars ≡ 2 }
    requires target { d.now.ring ≡ ring }
    requires source { g.now.matrix.ring ≡ ring }
{
    if d.rows() != 1 || g.rows() != 1 {
        return None;
    }
    let mut work = Work::new(units);
    let end = over_identity(alloc, ring, &[d], &[g], &mut work);
    Some((end, work.left()))
}

// From (xy) to (x).
fn identity_ends_so(alloc: Global, units: u32, want: &End) -> Result<bool, Stop> {
    let ring = Ring {
        prime: Prime::Three,
        vars: 2,
        order: Order::Grevlex,
    };
    let d = matrix(alloc, ring, CROSSING)?;
    let g = graph(alloc, ring, LINE)?;
    match identity_lifted(alloc, ring, &d, &g, units) {
        Some((end, left)) => Ok(is_end(ring, &end, left, want)),
        None => Ok(false),
    }
}

#[test]
fn lifts_of_the_identity(rt: HostRuntime) -> Result<(), Fail> {
    let alloc = rt.alloc();
    assert!(rt; matches!(identity_ends_so(alloc, 2, &BY_Y), Ok(true)));
    assert!(rt; matches!(identity_ends_so(alloc, 1, &STOPPED), Ok(true)));
    Ok(())
}
