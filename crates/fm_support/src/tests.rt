// Annihilators and powers of polynomials over small matrices, against values found by hand.
ghost use Rattle.std.specs.Prelude.{IfOk, length, ◌≡◌, ◌≤◌};
ghost use Rattle.fm_mat.specs.Matrices.{AreColumns};
ghost use Rattle.fm_vec.specs.Components.{AreOver};

use crate::{Inverted, annihilator, invert};
use fm_gfp::Prime;
use fm_mat::{Column, Matrix};
use fm_mono::{EXPONENT_BOUND, Mono, Order};
use fm_poly::{Poly, Ring, Term};
use fm_run::{Name, Stop, Stopped, Work};
use fm_syz::{Graph, graph_of};
use std::alloc::{AllocError, Global};
use std::test::Fail;

// A monomial in x and y with its coefficient, or zero.
type Entry = ([u32; 2], u64);

// The number of rows, and the columns.
type Given = (u32, &'static [&'static [Entry]]);

// The power, the number of colons that become stable, or the task that stops.
#[derive(Clone, Copy)]
enum End {
    Power(u32),
    Never(usize),
    Stops(Name, u64),
}

const ONE: Entry = ([0, 0], 1);

const ZERO: Entry = ([0, 0], 0);

const X: Entry = ([1, 0], 1);

const Y: Entry = ([0, 1], 1);

const XY: Entry = ([1, 1], 1);

const X2: Entry = ([2, 0], 1);

const X3: Entry = ([3, 0], 1);

// The ideals (x^2, y) and (x^3), and everything.
const FAT: Given = (1, &[&[X2], &[Y]]);

const THRICE: Given = (1, &[&[X3]]);

const ALL: Given = (1, &[&[ONE]]);

// The sum of R/(x) and R/(y), a free module of rank 2, and the module without generators.
const BOTH: Given = (2, &[&[X, ZERO], &[ZERO, Y]]);

const FREE: Given = (2, &[]);

const NONE: Given = (0, &[]);

const CROSSING: Given = (1, &[&[XY]]);

const POWERS: &[(Given, Entry, u32, End)] = &[
    (FAT, X, 999, End::Power(2)),
    (FAT, Y, 999, End::Power(1)),
    (FAT, ZERO, 999, End::Power(1)),
    (THRICE, X, 999, End::Power(3)),
    (ALL, ZERO, 999, End::Power(0)),
    (NONE, X, 999, End::Power(0)),
    (FAT, ONE, 999, End::Never(1)),
    (CROSSING, X, 999, End::Never(2)),
    (BOTH, X, 999, End::Never(2)),
    (BOTH, XY, 999, End::Power(1)),
    (FAT, X, 0, End::Stops(Name::Colon, 0)),
    (FAT, X, 1, End::Stops(Name::Colon, 1)),
];

const ANNIHILATORS: &[(Given, &[Entry])] = &[
    (FAT, &[X2, Y]),
    (ALL, &[ONE]),
    (BOTH, &[XY]),
    (FREE, &[]),
    (NONE, &[ONE]),
];

const PLANE: Ring = Ring {
    prime: Prime::Two,
    vars: 2,
    order: Order::Grevlex,
};

// The monomial with these exponents, none of which passes the bound.
#[tactic(auto, using(fm_mono::proofs::Bounds::within_more))]
fn mono(exponents: [u32; 2]) -> Mono
    ensures { length result ≡ 2 }
{
    let [x, y] = exponents;
    Mono::of(&[x.min(EXPONENT_BOUND), y.min(EXPONENT_BOUND)])
}

fn poly(alloc: Global, ring: Ring, entry: Entry) -> Result<Poly, AllocError>
    requires { ring.vars ≡ 2 }
    ensures { IfOk result (λ f. f.ring ≡ ring) }
{
    let term = Term {
        mono: mono(entry.0),
        coeff: ring.prime.element(entry.1),
    };
    let f = Poly::from_terms(alloc, ring, &[term])?;
    Ok(f)
}

fn column(alloc: Global, ring: Ring, rows: u32, entries: &[Entry]) -> Result<Vec<Poly>, AllocError>
    requires { ring.vars ≡ 2 }
    ensures over { IfOk result (λ out. AreOver ring out.items) }
    ensures rows { IfOk result (λ out. length out.items ≡ rows) }
{
    let mut out = Vec::new(alloc);
    for i in 0..rows {
        let Some(entry) = entries.get(i as usize) else {
            return Err(AllocError);
        };
        out.push(poly(alloc, ring, *entry)?)?;
    }
    Ok(out)
}

fn columns_of(
    alloc: Global,
    ring: Ring,
    rows: u32,
    columns: &[&[Entry]],
) -> Result<Vec<Column>, AllocError>
    requires { ring.vars ≡ 2 }
    ensures columns { IfOk result (λ out. AreColumns ring rows out.items) }
    ensures count { IfOk result (λ out. length out.items ≡ length columns.now) }
{
    let mut out = Vec::new(alloc);
    for j in 0..columns.len() {
        out.push(Column::new(column(alloc, ring, rows, columns[j])?))?;
    }
    Ok(out)
}

fn matrix(alloc: Global, ring: Ring, given: Given) -> Result<Matrix, AllocError>
    requires { ring.vars ≡ 2 }
    ensures ring { IfOk result (λ m. m.ring ≡ ring) }
    ensures rows { IfOk result (λ m. m.rows ≤ 9) }
    ensures few { IfOk result (λ m. length m.columns ≤ 9) }
{
    let (rows, columns) = given;
    if rows > 9 || columns.len() > 9 {
        return Err(AllocError);
    }
    let columns = columns_of(alloc, ring, rows, columns)?;
    Ok(Matrix::new(ring, rows, columns))
}

fn graph(alloc: Global, ring: Ring, given: Given) -> Result<Graph, Stop>
    requires { ring.vars ≡ 2 }
    ensures { IfOk result (λ g. g.matrix.ring ≡ ring) }
{
    let m = matrix(alloc, ring, given)?;
    graph_of(alloc, m, &mut Work::new(99))
}

fn is_entry(f: &Poly, entry: Entry) -> bool {
    let term = Term {
        mono: mono(entry.0),
        coeff: PLANE.prime.element(entry.1),
    };
    match f.terms() {
        [] => entry.1 == 0,
        [t] => entry.1 != 0 && *t == term,
        _ => false,
    }
}

fn is_column(fs: &[Poly], entries: &[Entry]) -> bool {
    if fs.len() != entries.len() {
        return false;
    }
    for i in 0..fs.len() {
        if !is_entry(&fs[i], entries[i]) {
            return false;
        }
    }
    true
}

fn is_row(m: &Matrix, entries: &[Entry]) -> bool {
    let columns = m.columns();
    if m.rows() != 1 || columns.len() != entries.len() {
        return false;
    }
    for j in 0..columns.len() {
        if !is_column(columns[j].entries(), &entries[j..j + 1]) {
            return false;
        }
    }
    true
}

fn is_end(end: &Result<Inverted, Stopped>, want: End) -> bool {
    match (end, want) {
        (Ok(Inverted::Power { k, before, .. }), End::Power(power)) => {
            *k == power && before.is_some() == (power > 0)
        }
        (Ok(Inverted::Never { colons, .. }), End::Never(count)) => colons.len() == count,
        (Err(stopped), End::Stops(name, number)) => {
            stopped.task.name == name
                && stopped.task.number == number
                && stopped.stop == Stop::Budget
        }
        _ => false,
    }
}

fn inverts_so(alloc: Global, row: &(Given, Entry, u32, End)) -> Result<bool, Stop> {
    let (given, entry, units, want) = *row;
    let g = graph(alloc, PLANE, given)?;
    let f = poly(alloc, PLANE, entry)?;
    Ok(is_end(&invert(alloc, &g, &f, &mut Work::new(units)), want))
}

fn is_annihilated_so(alloc: Global, row: &(Given, &[Entry])) -> Result<bool, Stop> {
    let g = graph(alloc, PLANE, row.0)?;
    match annihilator(alloc, &g, &mut Work::new(999)) {
        Ok(p) => Ok(is_row(p.generators().found(), row.1)),
        Err(stopped) => Err(stopped.stop),
    }
}

#[test]
fn powers_that_kill(rt: HostRuntime) -> Result<(), Fail> {
    for (k, row) in POWERS.iter().enumerate() {
        assert!(rt; matches!(inverts_so(rt.alloc(), row), Ok(true)), "row {k}");
    }
    Ok(())
}

#[test]
fn annihilators(rt: HostRuntime) -> Result<(), Fail> {
    for (k, row) in ANNIHILATORS.iter().enumerate() {
        assert!(rt;
            matches!(is_annihilated_so(rt.alloc(), row), Ok(true)),
            "row {k}"
        );
    }
    Ok(())
}
