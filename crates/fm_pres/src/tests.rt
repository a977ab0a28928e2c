// Small tables against values found by hand.
ghost use Rattle.std.specs.Prelude.{IfOk, IfSome, length, ◌≡◌, ◌≤◌};
ghost use Rattle.fm_mat.specs.Matrices.{AreColumns};
ghost use Rattle.fm_vec.specs.Components.{AreOver};
ghost use Rattle.fm_pres.specs.Tables.{IsOver};

use crate::{Form, PartFault, Table};
use fm_gfp::Prime;
use fm_mat::{Column, Matrix};
use fm_mono::{EXPONENT_BOUND, Mono, Order};
use fm_poly::{Poly, PolyError, Ring, Term};
use std::alloc::{AllocError, Global};
use std::test::Fail;

// A monomial in x and y with its coefficient, or zero.
type Entry = ([u32; 2], u64);

// The number of rows, and the columns.
type Given = (u32, &'static [&'static [Entry]]);

const X: Entry = ([1, 0], 1);

const Y: Entry = ([0, 1], 1);

const XY: Entry = ([1, 1], 1);

const X2: Entry = ([2, 0], 1);

const Y2: Entry = ([0, 2], 1);

const HIGH: Entry = ([8_388_608, 0], 1);

const LARGE: Given = (1, &[&[HIGH]]);

const PICKED: Given = (1, &[&[Y2], &[X], &[X]]);

const PRODUCT: Given = (2, &[&[X2, XY], &[XY, Y2]]);

const ABOVE: Given = (2, &[&[X, X2], &[Y, Y2]]);

const JOINED: Given = (1, &[&[X], &[Y], &[X2], &[Y2]]);

const FLIPPED: Given = (2, &[&[X, Y]]);

const ROW: Given = (1, &[&[X], &[Y]]);

const PLANE: Ring = Ring {
    prime: Prime::Two,
    vars: 2,
    order: Order::Grevlex,
};

// The form of a part, with the numbers of the parts that it is made of.
#[derive(Clone, Copy)]
enum Line {
    Given(Given),
    Twist(u32, u8),
    Flip(u32),
    Beside(u32, u32),
    Stack(u32, u32),
    Times(u32, u32),
    Pick(u32, &'static [u32]),
}

// A line, and the number of its part or the fault that is told.
type Said = (Line, Result<u32, PartFault>);

const MADE: [Said; 7] = [
    (Line::Given(ROW), Ok(1)),
    (Line::Twist(1, 1), Ok(2)),
    (Line::Flip(1), Ok(3)),
    (Line::Beside(1, 2), Ok(4)),
    (Line::Stack(1, 2), Ok(5)),
    (Line::Times(3, 1), Ok(6)),
    (Line::Pick(4, &[4, 1, 1]), Ok(7)),
];

const VALUES: [(u32, Given); 6] = [
    (7, PICKED),
    (6, PRODUCT),
    (5, ABOVE),
    (4, JOINED),
    (3, FLIPPED),
    (1, ROW),
];

const FAULTS: [Said; 10] = [
    (Line::Flip(1), Err(PartFault::Reference)),
    (Line::Given(ROW), Ok(1)),
    (Line::Flip(0), Err(PartFault::Reference)),
    (Line::Times(1, 2), Err(PartFault::Reference)),
    (Line::Times(1, 1), Err(PartFault::Shape)),
    (Line::Pick(1, &[1, 3]), Err(PartFault::Reference)),
    (Line::Pick(1, &[0]), Err(PartFault::Reference)),
    (Line::Flip(1), Ok(2)),
    (Line::Beside(1, 2), Err(PartFault::Shape)),
    (Line::Stack(2, 1), Err(PartFault::Shape)),
];

// The twist of part 1 passes the bound, and so does its square.
const HIGHER: [Said; 4] = [
    (Line::Given(LARGE), Ok(1)),
    (Line::Twist(1, 1), Ok(2)),
    (Line::Flip(2), Ok(3)),
    (Line::Times(1, 1), Ok(4)),
];

// The monomial with these exponents, none of which passes the bound.
#[tactic(auto, using(fm_mono::proofs::Bounds::within_more))]
fn mono(exponents: [u32; 2]) -> Mono
    ensures { length result ≡ 2 }
{
    let [x, y] = exponents;
    Mono::of(&[x.min(EXPONENT_BOUND), y.min(EXPONENT_BOUND)])
}

fn poly(alloc: Global, ring: Ring, entry: Entry) -> Result<Poly, AllocError>
    requires { ring.vars ≡ 2 }
    ensures { IfOk result (λ f. f.ring ≡ ring) }
{
    let term = Term {
        mono: mono(entry.0),
        coeff: ring.prime.element(entry.1),
    };
    let f = Poly::from_terms(alloc, ring, &[term])?;
    Ok(f)
}

fn column(alloc: Global, ring: Ring, rows: u32, entries: &[Entry]) -> Result<Vec<Poly>, AllocError>
    requires { ring.vars ≡ 2 }
    ensures over { IfOk result (λ out. AreOver ring out.items) }
    ensures rows { IfOk result (λ out. length out.items ≡ rows) }
{
    let mut out = Vec::new(alloc);
    for i in 0..rows {
        let Some(entry) = entries.get(i as usize) else {
            return Err(AllocError);
        };
        out.push(poly(alloc, ring, *entry)?)?;
    }
    Ok(out)
}

fn columns_of(
    alloc: Global,
    ring: Ring,
    rows: u32,
    columns: &[&[Entry]],
) -> Result<Vec<Column>, AllocError>
    requires { ring.vars ≡ 2 }
    ensures columns { IfOk result (λ out. AreColumns ring rows out.items) }
    ensures count { IfOk result (λ out. length out.items ≡ length columns.now) }
{
    let mut out = Vec::new(alloc);
    for j in 0..columns.len() {
        out.push(Column::new(column(alloc, ring, rows, columns[j])?))?;
    }
    Ok(out)
}

fn matrix(alloc: Global, ring: Ring, given: Given) -> Result<Matrix, AllocError>
    requires { ring.vars ≡ 2 }
    ensures ring { IfOk result (λ m. m.ring ≡ ring) }
    ensures rows { IfOk result (λ m. m.rows ≤ 9) }
    ensures few { IfOk result (λ m. length m.columns ≤ 9) }
{
    let (rows, columns) = given;
    if rows > 9 || columns.len() > 9 {
        return Err(AllocError);
    }
    let columns = columns_of(alloc, ring, rows, columns)?;
    Ok(Matrix::new(ring, rows, columns))
}

fn is_entry(ring: Ring, f: &Poly, entry: Entry) -> bool
    requires { ring.vars ≡ 2 }
{
    let term = Term {
        mono: mono(entry.0),
        coeff: ring.prime.element(entry.1),
    };
    match f.terms() {
        [] => entry.1 == 0,
        [t] => entry.1 != 0 && *t == term,
        _ => false,
    }
}

fn is_column(ring: Ring, fs: &[Poly], entries: &[Entry]) -> bool
    requires { ring.vars ≡ 2 }
{
    if fs.len() != entries.len() {
        return false;
    }
    for i in 0..fs.len() {
        if !is_entry(ring, &fs[i], entries[i]) {
            return false;
        }
    }
    true
}

fn is_matrix(ring: Ring, m: &Matrix, given: Given) -> bool
    requires { ring.vars ≡ 2 }
{
    let columns = m.columns();
    if m.rows() != given.0 || columns.len() != given.1.len() {
        return false;
    }
    for j in 0..columns.len() {
        if !is_column(ring, columns[j].entries(), given.1[j]) {
            return false;
        }
    }
    true
}

fn given(alloc: Global, ring: Ring, entries: Given) -> Result<Form, AllocError>
    requires { ring.vars ≡ 2 }
    ensures { IfOk result (IsOver ring) }
{
    let m = matrix(alloc, ring, entries)?;
    Ok(Form::Given(m))
}

// The form of a line.
fn form_of(alloc: Global, line: Line) -> Result<Form, AllocError>
    ensures { IfOk result (IsOver PLANE) }
{
    match line {
        Line::Given(entries) => given(alloc, PLANE, entries),
        Line::Twist(part, power) => Ok(Form::Twist { part, power }),
        Line::Flip(part) => Ok(Form::Flip(part)),
        Line::Beside(left, right) => Ok(Form::Beside(left, right)),
        Line::Stack(above, below) => Ok(Form::Stack(above, below)),
        Line::Times(left, right) => Ok(Form::Times(left, right)),
        Line::Pick(part, numbers) => Ok(Form::Pick {
            part,
            columns: Vec::from_slice(alloc, numbers)?,
        }),
    }
}

// What the table answers to a line.
fn answer(
    alloc: Global,
    table: &mut Table,
    line: Line,
) -> Result<Result<u32, PartFault>, AllocError>
    requires { table.old.ring ≡ PLANE }
    ensures { table.new.ring ≡ PLANE }
{
    let form = form_of(alloc, line)?;
    table.add(form)
}

// The table after these lines, where it answers so to each.
fn table_of(alloc: Global, lines: &[Said]) -> Result<Option<Table>, AllocError>
    ensures { IfOk result (λ o. IfSome o (λ t. t.ring ≡ PLANE)) }
{
    let mut table = Table::new(alloc, PLANE);
    for i in 0..lines.len() {
        let (line, want) = lines[i];
        if answer(alloc, &mut table, line)? != want {
            return Ok(None);
        }
    }
    Ok(Some(table))
}

fn has_shape(table: &Table, k: u32, want: (u32, u32)) -> bool {
    table.is_part(k) && table.shape(k) == want
}

fn has_value(alloc: Global, table: &mut Table, k: u32, want: Given) -> bool {
    if !table.is_part(k) {
        return false;
    }
    match table.value(alloc, k) {
        Ok(value) => is_matrix(PLANE, &value, want),
        Err(_) => false,
    }
}

fn passes_the_bound(alloc: Global, table: &mut Table, k: u32) -> bool {
    table.is_part(k) && matches!(table.value(alloc, k), Err(PolyError::Exponent))
}

#[test]
fn forms_are_evaluated(rt: HostRuntime) -> Result<(), Fail> {
    let made = table_of(rt.alloc(), &MADE)?;
    assert!(rt; made.is_some());
    let Some(mut table) = made else {
        return Ok(());
    };
    assert!(rt; has_shape(&table, 7, (1, 3)));
    for (k, want) in VALUES {
        assert!(rt; has_value(rt.alloc(), &mut table, k, want));
    }
    Ok(())
}

#[test]
fn faults_are_told_in_their_order(rt: HostRuntime) -> Result<(), Fail> {
    assert!(rt; table_of(rt.alloc(), &FAULTS)?.is_some());
    Ok(())
}

#[test]
fn a_twist_passes_the_bound(rt: HostRuntime) -> Result<(), Fail> {
    let made = table_of(rt.alloc(), &HIGHER)?;
    assert!(rt; made.is_some());
    let Some(mut table) = made else {
        return Ok(());
    };
    assert!(rt; passes_the_bound(rt.alloc(), &mut table, 3));
    assert!(rt; passes_the_bound(rt.alloc(), &mut table, 4));
    assert!(rt; has_value(rt.alloc(), &mut table, 1, LARGE));
    Ok(())
}
