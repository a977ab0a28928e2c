// Completed graphs against values found by hand.
ghost use Rattle.std.specs.Prelude.{All, IfOk, length, ◌+◌, ◌≡◌, ◌≤◌};
ghost use Rattle.fm_mat.specs.Matrices.{AreColumns};
ghost use Rattle.fm_poly.specs.Polys.{IsTermOf};
ghost use Rattle.fm_vec.specs.Components.{AreOver};

use crate::{Graph, graph_of, syzygies, twisted};
use fm_gfp::Prime;
use fm_mat::{Column, Matrix};
use fm_mono::{EXPONENT_BOUND, Mono, Order};
use fm_poly::{Poly, PolyError, Ring, Term};
use fm_run::{Stop, Work};
use std::alloc::{AllocError, Global};
use std::test::Fail;

// A term in x and y: both exponents and the coefficient.
pub(crate) type Listed = ([u32; 2], u64);

// The number of rows, and the columns.
pub(crate) type Given<'a, 'b, 'c> = (u32, &'a [&'b [&'c [Listed]]]);

pub(crate) fn plane(prime: Prime) -> Ring
    ensures { result.vars ≡ 2 }
{
    Ring {
        prime,
        vars: 2,
        order: Order::Grevlex,
    }
}

// The monomial with these exponents, none of which passes the bound.
#[tactic(auto, using(fm_mono::proofs::Bounds::within_more))]
fn mono(exponents: [u32; 2]) -> Mono
    ensures { length result ≡ 2 }
{
    let [x, y] = exponents;
    Mono::of(&[x.min(EXPONENT_BOUND), y.min(EXPONENT_BOUND)])
}

fn listed(alloc: Global, ring: Ring, list: &[Listed]) -> Result<Vec<Term>, AllocError>
    requires { ring.vars ≡ 2 }
    ensures { IfOk result (λ v. All (IsTermOf ring) v.items) }
{
    let mut terms = Vec::new(alloc);
    for t in list {
        terms.push(Term {
            mono: mono(t.0),
            coeff: ring.prime.element(t.1),
        })?;
    }
    Ok(terms)
}

fn poly(alloc: Global, ring: Ring, list: &[Listed]) -> Result<Poly, AllocError>
    requires { ring.vars ≡ 2 }
    ensures { IfOk result (λ f. f.ring ≡ ring) }
{
    let terms = listed(alloc, ring, list)?;
    let f = Poly::from_terms(alloc, ring, &terms)?;
    Ok(f)
}

pub(crate) fn column(
    alloc: Global,
    ring: Ring,
    rows: u32,
    entries: &[&[Listed]],
) -> Result<Vec<Poly>, AllocError>
    requires { ring.vars ≡ 2 }
    ensures over { IfOk result (λ out. AreOver ring out.items) }
    ensures rows { IfOk result (λ out. length out.items ≡ rows) }
{
    let mut out = Vec::new(alloc);
    for i in 0..rows {
        let Some(terms) = entries.get(i as usize) else {
            return Err(AllocError);
        };
        out.push(poly(alloc, ring, terms)?)?;
    }
    Ok(out)
}

fn columns_of(
    alloc: Global,
    ring: Ring,
    rows: u32,
    columns: &[&[&[Listed]]],
) -> Result<Vec<Column>, AllocError>
    requires { ring.vars ≡ 2 }
    ensures columns { IfOk result (λ out. AreColumns ring rows out.items) }
    ensures count { IfOk result (λ out. length out.items ≡ length columns.now) }
{
    let mut out = Vec::new(alloc);
    for j in 0..columns.len() {
        out.push(Column::new(column(alloc, ring, rows, columns[j])?))?;
    }
    Ok(out)
}

// At most nine rows and nine columns.
pub(crate) fn matrix(alloc: Global, ring: Ring, given: Given) -> Result<Matrix, AllocError>
    requires { ring.vars ≡ 2 }
    ensures ring { IfOk result (λ m. m.ring ≡ ring) }
    ensures small { IfOk result (λ m. m.rows + length m.columns ≤ 18) }
{
    let (rows, columns) = given;
    if rows > 9 || columns.len() > 9 {
        return Err(AllocError);
    }
    let columns = columns_of(alloc, ring, rows, columns)?;
    Ok(Matrix::new(ring, rows, columns))
}

pub(crate) fn same_columns(c: &[Poly], d: &[Poly]) -> bool {
    if c.len() != d.len() {
        return false;
    }
    for i in 0..c.len() {
        if c[i].terms() != d[i].terms() {
            return false;
        }
    }
    true
}

pub(crate) fn same(a: &Matrix, b: &Matrix) -> bool {
    if a.rows() != b.rows() || a.cols() != b.cols() || a.ring() != b.ring() {
        return false;
    }
    for j in 0..a.cols() {
        if !same_columns(a.column(j + 1), b.column(j + 1)) {
            return false;
        }
    }
    true
}

// Whether m is this matrix.
pub(crate) fn is(alloc: Global, prime: Prime, m: &Matrix, want: Given) -> Result<bool, AllocError> {
    let want = matrix(alloc, plane(prime), want)?;
    Ok(same(m, &want))
}

// The completed graph.
pub(crate) fn graph(alloc: Global, ring: Ring, a: Given, work: &mut Work) -> Result<Graph, Stop>
    requires { ring.vars ≡ 2 }
    ensures { IfOk result (λ g. g.matrix.ring ≡ ring) }
{
    let a = matrix(alloc, ring, a)?;
    graph_of(alloc, a, work)
}

fn syzygies_are(alloc: Global, g: &Graph, want: Given) -> Result<bool, AllocError> {
    let kernel = syzygies(alloc, g)?;
    is(alloc, Prime::Three, &kernel, want)
}

// A matrix, the units that its completion needs, and its syzygies.
type Kernel<'a> = (Given<'a, 'a, 'a>, u32, Given<'a, 'a, 'a>);

// Whether the completion spends all of the units, and the syzygies are these.
fn kernel_is(alloc: Global, case: &Kernel) -> Result<bool, Stop> {
    let (a, units, want) = *case;
    let mut work = Work::new(units);
    let g = graph(alloc, plane(Prime::Three), a, &mut work)?;
    let same = syzygies_are(alloc, &g, want)?;
    Ok(work.left() == 0 && same)
}

// The units left by the completion of x and y, and the numbers of its members and of the entries of its log.
fn numbers(alloc: Global, units: u32) -> Result<(u32, usize, usize), Stop> {
    let mut work = Work::new(units);
    let g = graph(alloc, plane(Prime::Three), BOTH, &mut work)?;
    Ok((work.left(), g.members().len(), g.log().len()))
}

// The twist of the graph by 3.
fn twist(alloc: Global, a: Given) -> Result<Graph, PolyError> {
    let mut work = Work::new(100);
    let Ok(g) = graph(alloc, plane(Prime::Three), a, &mut work) else {
        return Err(PolyError::Memory);
    };
    twisted(alloc, &g, 1)
}

// A matrix, its twist by 3, the syzygies of that, and the number of its members.
type Twist<'a> = (
    Given<'a, 'a, 'a>,
    Given<'a, 'a, 'a>,
    Given<'a, 'a, 'a>,
    usize,
);

fn twist_is(alloc: Global, case: &Twist) -> Result<bool, PolyError> {
    let (a, matrix, kernel, count) = *case;
    let h = twist(alloc, a)?;
    let same_matrix = is(alloc, Prime::Three, h.matrix(), matrix)?;
    let same_kernel = syzygies_are(alloc, &h, kernel)?;
    Ok(same_matrix && same_kernel && h.members().len() == count && h.log().len() == count)
}

pub(crate) const ZERO: &[Listed] = &[];

pub(crate) const ONE: &[Listed] = &[([0, 0], 1)];

pub(crate) const TWO: &[Listed] = &[([0, 0], 2)];

pub(crate) const X: &[Listed] = &[([1, 0], 1)];

pub(crate) const Y: &[Listed] = &[([0, 1], 1)];

pub(crate) const TWICE_X: &[Listed] = &[([1, 0], 2)];

pub(crate) const XY: &[Listed] = &[([1, 1], 1)];

pub(crate) const YY: &[Listed] = &[([0, 2], 1)];

pub(crate) const BOTH: Given = (1, &[&[X], &[Y]]);

const KERNELS: &[Kernel] = &[
    // x * y = y * x
    (BOTH, 3, (2, &[&[Y, TWICE_X]])),
    // the second column is y times the first
    ((1, &[&[X], &[XY]]), 3, (2, &[&[Y, TWO]])),
    ((2, &[&[X, Y], &[XY, YY]]), 3, (2, &[&[Y, TWO]])),
    // a zero column, a matrix without columns, and one without rows
    ((1, &[&[ZERO], &[X]]), 2, (2, &[&[ONE, ZERO]])),
    ((1, &[]), 0, (0, &[])),
    ((0, &[&[], &[]]), 2, (2, &[&[ONE, ZERO], &[ZERO, ONE]])),
    // an injective one
    ((2, &[&[X, ZERO], &[ZERO, Y]]), 2, (2, &[])),
];

const TWISTS: &[Twist] = &[
    (
        BOTH,
        (1, &[&[&[([3, 0], 1)]], &[&[([0, 3], 1)]]]),
        (2, &[&[&[([0, 3], 1)], &[([3, 0], 2)]]]),
        3,
    ),
    // 3 * 5,592,405 is the bound on exponents
    (
        (1, &[&[&[([5_592_405, 0], 1)]]]),
        (1, &[&[&[([16_777_215, 0], 1)]]]),
        (1, &[]),
        1,
    ),
];

const BEYOND: Twist = ((1, &[&[&[([5_592_406, 0], 1)]]]), (1, &[]), (0, &[]), 1);

#[test]
fn kernels_of_small_matrices(rt: HostRuntime) -> Result<(), Fail> {
    for case in KERNELS {
        assert!(rt; kernel_is(rt.alloc(), case)?);
    }
    Ok(())
}

// One unit for each of both inputs, and one for the S-vector.
#[test]
fn three_units_are_needed(rt: HostRuntime) -> Result<(), Fail> {
    assert!(rt; matches!(numbers(rt.alloc(), 2), Err(Stop::Budget)));
    assert!(rt; matches!(numbers(rt.alloc(), 3), Ok((0, 3, 3))));
    Ok(())
}

#[test]
fn twists_of_graphs(rt: HostRuntime) -> Result<(), Fail> {
    for case in TWISTS {
        assert!(rt; twist_is(rt.alloc(), case)?);
    }
    assert!(rt; matches!(twist_is(rt.alloc(), &BEYOND), Err(PolyError::Exponent)));
    Ok(())
}
