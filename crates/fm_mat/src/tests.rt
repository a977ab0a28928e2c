// The calls against values found by hand.
ghost use Rattle.std.specs.Prelude.{All, IfOk, length, ◌≡◌, ◌≤◌};
ghost use Rattle.fm_mat.specs.Matrices.{AreColumns};
ghost use Rattle.fm_poly.specs.Polys.{IsTermOf};
ghost use Rattle.fm_vec.specs.Components.{AreOver};

use crate::{Column, Matrix};
use fm_gfp::Prime;
use fm_mono::{EXPONENT_BOUND, Mono, Order};
use fm_poly::{Poly, PolyError, Ring, Term};
use std::alloc::{AllocError, Global};
use std::test::Fail;

// A term in x and y: both exponents and the coefficient.
type Listed = ([u32; 2], u64);

// The number of rows, and the columns.
type Given<'a, 'b, 'c> = (u32, &'a [&'b [&'c [Listed]]]);

fn plane(prime: Prime) -> Ring
    ensures { result.vars ≡ 2 }
{
    Ring {
        prime,
        vars: 2,
        order: Order::Grevlex,
    }
}

// The monomial with these exponents, none of which passes the bound.
#[tactic(auto, using(fm_mono::proofs::Bounds::within_more))]
fn mono(exponents: [u32; 2]) -> Mono
    ensures { length result ≡ 2 }
{
    let [x, y] = exponents;
    Mono::of(&[x.min(EXPONENT_BOUND), y.min(EXPONENT_BOUND)])
}

fn listed(alloc: Global, ring: Ring, list: &[Listed]) -> Result<Vec<Term>, AllocError>
    requires { ring.vars ≡ 2 }
    ensures { IfOk result (λ v. All (IsTermOf ring) v.items) }
{
    let mut terms = Vec::new(alloc);
    for t in list {
        terms.push(Term {
            mono: mono(t.0),
            coeff: ring.prime.element(t.1),
        })?;
    }
    Ok(terms)
}

fn poly(alloc: Global, ring: Ring, list: &[Listed]) -> Result<Poly, AllocError>
    requires { ring.vars ≡ 2 }
    ensures { IfOk result (λ f. f.ring ≡ ring) }
{
    let terms = listed(alloc, ring, list)?;
    let f = Poly::from_terms(alloc, ring, &terms)?;
    Ok(f)
}

fn column(
    alloc: Global,
    ring: Ring,
    rows: u32,
    entries: &[&[Listed]],
) -> Result<Vec<Poly>, AllocError>
    requires { ring.vars ≡ 2 }
    ensures over { IfOk result (λ out. AreOver ring out.items) }
    ensures rows { IfOk result (λ out. length out.items ≡ rows) }
{
    let mut out = Vec::new(alloc);
    for i in 0..rows {
        let Some(terms) = entries.get(i as usize) else {
            return Err(AllocError);
        };
        out.push(poly(alloc, ring, terms)?)?;
    }
    Ok(out)
}

fn columns_of(
    alloc: Global,
    ring: Ring,
    rows: u32,
    columns: &[&[&[Listed]]],
) -> Result<Vec<Column>, AllocError>
    requires { ring.vars ≡ 2 }
    ensures columns { IfOk result (λ out. AreColumns ring rows out.items) }
    ensures count { IfOk result (λ out. length out.items ≡ length columns.now) }
{
    let mut out = Vec::new(alloc);
    for j in 0..columns.len() {
        out.push(Column::new(column(alloc, ring, rows, columns[j])?))?;
    }
    Ok(out)
}

fn matrix(alloc: Global, ring: Ring, given: Given) -> Result<Matrix, AllocError>
    requires { ring.vars ≡ 2 }
    ensures ring { IfOk result (λ m. m.ring ≡ ring) }
    ensures few { IfOk result (λ m. length m.columns ≤ 9) }
{
    let (rows, columns) = given;
    if columns.len() > 9 {
        return Err(AllocError);
    }
    let columns = columns_of(alloc, ring, rows, columns)?;
    Ok(Matrix::new(ring, rows, columns))
}

fn same_columns(c: &[Poly], d: &[Poly]) -> bool {
    if c.len() != d.len() {
        return false;
    }
    for i in 0..c.len() {
        if c[i].terms() != d[i].terms() {
            return false;
        }
    }
    true
}

fn same(a: &Matrix, b: &Matrix) -> bool {
    if a.rows() != b.rows() || a.cols() != b.cols() || a.ring() != b.ring() {
        return false;
    }
    for j in 0..a.cols() {
        if !same_columns(a.column(j + 1), b.column(j + 1)) {
            return false;
        }
    }
    true
}

// What is made of matrices.
#[derive(Copy, Clone)]
enum Op<'a> {
    Times(Given<'a, 'a, 'a>, Given<'a, 'a, 'a>),
    Twist(Given<'a, 'a, 'a>, u8),
    Flip(Given<'a, 'a, 'a>),
    Beside(Given<'a, 'a, 'a>, Given<'a, 'a, 'a>),
    Stack(Given<'a, 'a, 'a>, Given<'a, 'a, 'a>),
    // columns 3, 1 and 1
    Pick(Given<'a, 'a, 'a>),
    PickNone(Given<'a, 'a, 'a>),
    Unit(u32),
}

fn times(alloc: Global, ring: Ring, a: Given, b: Given) -> Result<Matrix, PolyError>
    requires { ring.vars ≡ 2 }
{
    let a = matrix(alloc, ring, a)?;
    let b = matrix(alloc, ring, b)?;
    if b.rows() != a.cols() {
        return Err(PolyError::Memory);
    }
    a.times(alloc, &b)
}

fn twist(alloc: Global, ring: Ring, a: Given, e: u8) -> Result<Matrix, PolyError>
    requires { ring.vars ≡ 2 }
{
    let a = matrix(alloc, ring, a)?;
    a.twist(alloc, e)
}

fn flip(alloc: Global, ring: Ring, a: Given) -> Result<Matrix, AllocError>
    requires { ring.vars ≡ 2 }
{
    let a = matrix(alloc, ring, a)?;
    a.flip(alloc)
}

fn beside(alloc: Global, ring: Ring, a: Given, b: Given) -> Result<Matrix, AllocError>
    requires { ring.vars ≡ 2 }
{
    let a = matrix(alloc, ring, a)?;
    let b = matrix(alloc, ring, b)?;
    if b.rows() != a.rows() {
        return Err(AllocError);
    }
    a.beside(alloc, &b)
}

fn stack(alloc: Global, ring: Ring, a: Given, b: Given) -> Result<Matrix, AllocError>
    requires { ring.vars ≡ 2 }
{
    let a = matrix(alloc, ring, a)?;
    let b = matrix(alloc, ring, b)?;
    if b.cols() != a.cols() || a.rows() > 9 || b.rows() > 9 {
        return Err(AllocError);
    }
    a.stack(alloc, &b)
}

fn pick(alloc: Global, ring: Ring, a: Given) -> Result<Matrix, AllocError>
    requires { ring.vars ≡ 2 }
{
    let a = matrix(alloc, ring, a)?;
    if a.cols() != 3 {
        return Err(AllocError);
    }
    a.pick(alloc, &[3, 1, 1])
}

fn pick_none(alloc: Global, ring: Ring, a: Given) -> Result<Matrix, AllocError>
    requires { ring.vars ≡ 2 }
{
    let a = matrix(alloc, ring, a)?;
    a.pick(alloc, &[])
}

fn made(alloc: Global, ring: Ring, op: Op) -> Result<Matrix, PolyError>
    requires { ring.vars ≡ 2 }
{
    match op {
        Op::Times(a, b) => times(alloc, ring, a, b),
        Op::Twist(a, e) => twist(alloc, ring, a, e),
        Op::Flip(a) => Ok(flip(alloc, ring, a)?),
        Op::Beside(a, b) => Ok(beside(alloc, ring, a, b)?),
        Op::Stack(a, b) => Ok(stack(alloc, ring, a, b)?),
        Op::Pick(a) => Ok(pick(alloc, ring, a)?),
        Op::PickNone(a) => Ok(pick_none(alloc, ring, a)?),
        Op::Unit(n) => Ok(Matrix::unit(alloc, ring, n)?),
    }
}

// Whether m is this matrix, and so is its copy.
fn is(alloc: Global, ring: Ring, m: &Matrix, want: Given) -> Result<bool, AllocError>
    requires { ring.vars ≡ 2 }
{
    let want = matrix(alloc, ring, want)?;
    let copy = m.copy(alloc)?;
    Ok(same(m, &want) && same(&copy, &want))
}

// What is made, and its value, or none where an exponent would pass the bound.
type Case<'a> = (Op<'a>, Option<Given<'a, 'a, 'a>>);

fn holds(alloc: Global, ring: Ring, case: &Case) -> Result<bool, PolyError>
    requires { ring.vars ≡ 2 }
{
    let m = match made(alloc, ring, case.0) {
        Ok(m) => m,
        Err(PolyError::Exponent) => return Ok(case.1.is_none()),
        Err(PolyError::Memory) => return Err(PolyError::Memory),
    };
    let Some(want) = case.1 else {
        return Ok(false);
    };
    Ok(is(alloc, ring, &m, want)?)
}

fn all_hold(alloc: Global, ring: Ring, cases: &[Case]) -> Result<bool, PolyError>
    requires { ring.vars ≡ 2 }
{
    for case in cases {
        if !holds(alloc, ring, case)? {
            return Ok(false);
        }
    }
    Ok(true)
}

const ZERO: &[Listed] = &[];

const ONE: &[Listed] = &[([0, 0], 1)];

const TWO: &[Listed] = &[([0, 0], 2)];

const X: &[Listed] = &[([1, 0], 1)];

const Y: &[Listed] = &[([0, 1], 1)];

const XY: &[Listed] = &[([1, 1], 1)];

const X_PLUS_Y: &[Listed] = &[([1, 0], 1), ([0, 1], 1)];

const SQUARES: &[Listed] = &[([2, 0], 1), ([0, 2], 1)];

const TWICE_X: &[Listed] = &[([1, 0], 2)];

const TWICE_Y: &[Listed] = &[([0, 1], 2)];

const XY_PLUS_TWO: &[Listed] = &[([1, 1], 1), ([0, 0], 2)];

// -1 = 30 in characteristic 31.
const MINUS_X: &[Listed] = &[([1, 0], 30)];

const MINUS_Y: &[Listed] = &[([0, 1], 30)];

const LOW: &[Listed] = &[([8_388_607, 0], 1)];

const HIGH: &[Listed] = &[([8_388_608, 0], 1)];

const MOST: &[Listed] = &[([16_777_215, 0], 1)];

const THIRD: &[Listed] = &[([5_592_405, 0], 1)];

const BEYOND: &[Listed] = &[([0, 5_592_406], 1)];

const F: &[Listed] = &[([1, 1], 1), ([0, 0], 1)];

const F_SQUARED: &[Listed] = &[([2, 2], 1), ([0, 0], 1)];

const F_NINTH: &[Listed] = &[([9, 9], 1), ([0, 0], 1)];

const G: &[Listed] = &[([2, 0], 1)];

const G_SQUARED: &[Listed] = &[([4, 0], 1)];

const OVER_TWO: &[Case] = &[
    (
        Op::Times((1, &[&[X], &[Y]]), (2, &[&[X, Y]])),
        Some((1, &[&[SQUARES]])),
    ),
    (
        Op::Times((1, &[&[X_PLUS_Y]]), (1, &[&[X_PLUS_Y]])),
        Some((1, &[&[SQUARES]])),
    ),
    // the sum would cancel
    (
        Op::Times((1, &[&[HIGH], &[HIGH]]), (2, &[&[HIGH, HIGH]])),
        None,
    ),
    (
        Op::Twist((2, &[&[F, G]]), 1),
        Some((2, &[&[F_SQUARED, G_SQUARED]])),
    ),
    (Op::Twist((1, &[&[G]]), 24), None),
];

const OVER_THREE: &[Case] = &[
    (
        Op::Times((2, &[&[ONE, Y], &[X, TWO]]), (2, &[&[X, ONE], &[ZERO, Y]])),
        Some((2, &[&[TWICE_X, XY_PLUS_TWO], &[XY, TWICE_Y]])),
    ),
    // without rows or columns
    (
        Op::Times((2, &[]), (0, &[&[], &[]])),
        Some((2, &[&[ZERO, ZERO], &[ZERO, ZERO]])),
    ),
    (Op::Times((0, &[&[]]), (1, &[&[X]])), Some((0, &[&[]]))),
    (Op::Times((1, &[&[X]]), (1, &[])), Some((1, &[]))),
    (Op::Twist((1, &[&[F]]), 2), Some((1, &[&[F_NINTH]]))),
    (Op::Twist((1, &[&[THIRD]]), 1), Some((1, &[&[MOST]]))),
    (Op::Twist((1, &[&[THIRD], &[BEYOND]]), 1), None),
];

const OVER_THIRTY_ONE: &[Case] = &[
    // coefficients cancel
    (
        Op::Times((1, &[&[MINUS_X]]), (1, &[&[MINUS_Y]])),
        Some((1, &[&[XY]])),
    ),
    (
        Op::Times((1, &[&[MINUS_X], &[X]]), (2, &[&[Y, Y]])),
        Some((1, &[&[ZERO]])),
    ),
    (Op::Twist((1, &[&[F], &[G]]), 0), Some((1, &[&[F], &[G]]))),
    (Op::Twist((0, &[&[], &[]]), 9), Some((0, &[&[], &[]]))),
    (Op::Twist((3, &[]), 9), Some((3, &[]))),
];

// 16,777,215 is the bound. A product that passes it is refused, also one that would cancel; a product with 0 is not formed.
const OVER_EACH: &[Case] = &[
    (
        Op::Times((1, &[&[HIGH]]), (1, &[&[LOW]])),
        Some((1, &[&[MOST]])),
    ),
    (
        Op::Times((1, &[&[HIGH], &[LOW]]), (2, &[&[LOW, ZERO]])),
        Some((1, &[&[MOST]])),
    ),
    (Op::Times((1, &[&[HIGH]]), (1, &[&[HIGH]])), None),
    (
        Op::Times((1, &[&[ZERO], &[HIGH]]), (2, &[&[LOW, LOW], &[LOW, HIGH]])),
        None,
    ),
    (
        Op::Flip((2, &[&[X, Y], &[ZERO, X], &[Y, Y]])),
        Some((3, &[&[X, ZERO, Y], &[Y, X, Y]])),
    ),
    (Op::Flip((0, &[&[], &[]])), Some((2, &[]))),
    (Op::Flip((2, &[])), Some((0, &[&[], &[]]))),
    (Op::Flip((0, &[])), Some((0, &[]))),
    (
        Op::Beside((2, &[&[X, Y]]), (2, &[&[Y, ZERO], &[X, X]])),
        Some((2, &[&[X, Y], &[Y, ZERO], &[X, X]])),
    ),
    (Op::Beside((1, &[]), (1, &[&[X]])), Some((1, &[&[X]]))),
    (
        Op::Beside((0, &[&[]]), (0, &[&[], &[]])),
        Some((0, &[&[], &[], &[]])),
    ),
    (
        Op::Stack((1, &[&[X], &[Y]]), (2, &[&[Y, ZERO], &[X, X]])),
        Some((3, &[&[X, Y, ZERO], &[Y, X, X]])),
    ),
    (Op::Stack((0, &[&[]]), (1, &[&[X]])), Some((1, &[&[X]]))),
    (Op::Stack((2, &[]), (3, &[])), Some((5, &[]))),
    (
        Op::Pick((1, &[&[X], &[Y], &[XY]])),
        Some((1, &[&[XY], &[X], &[X]])),
    ),
    (Op::PickNone((1, &[&[X], &[Y], &[XY]])), Some((1, &[]))),
    (
        Op::Unit(3),
        Some((
            3,
            &[&[ONE, ZERO, ZERO], &[ZERO, ONE, ZERO], &[ZERO, ZERO, ONE]],
        )),
    ),
    (Op::Unit(1), Some((1, &[&[ONE]]))),
    (Op::Unit(0), Some((0, &[]))),
];

const GROUPS: &[(Prime, &[Case])] = &[
    (Prime::Two, OVER_TWO),
    (Prime::Three, OVER_THREE),
    (Prime::ThirtyOne, OVER_THIRTY_ONE),
    (Prime::Two, OVER_EACH),
    (Prime::Three, OVER_EACH),
    (Prime::ThirtyOne, OVER_EACH),
];

#[test]
fn matrices_are_those_found_by_hand(rt: HostRuntime) -> Result<(), Fail> {
    for group in GROUPS {
        assert!(rt; all_hold(rt.alloc(), plane(group.0), group.1)?);
    }
    Ok(())
}
