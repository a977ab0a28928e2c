// Lifts against solutions found by hand, over GF(3).
use crate::graph_tests::{
    BOTH, Given, Listed, ONE, TWO, X, XY, Y, YY, ZERO, column, graph, is, matrix, plane,
    same_columns,
};
use crate::{Inside, Lifted, inside_of, lift, lift_columns, whole_of};
use fm_gfp::Prime;
use fm_poly::Poly;
use fm_run::{Stop, Work};
use std::alloc::{AllocError, Global};
use std::test::Fail;

// The entries of a vector.
type Entries<'a, 'b> = &'a [&'b [Listed]];

const XY_AND_YY: &[Listed] = &[([1, 1], 1), ([0, 2], 1)];

const X_AND_Y: &[Listed] = &[([1, 0], 1), ([0, 1], 1)];

fn lift_of(alloc: Global, a: Given, v: Entries) -> Result<Lifted, Stop> {
    let ring = plane(Prime::Three);
    let mut work = Work::new(100);
    let g = graph(alloc, ring, a, &mut work)?;
    let v = column(alloc, ring, g.rows(), v)?;
    lift(alloc, &g, &v, &mut work)
}

// Whether c has these entries, as many as the number says.
fn column_is(alloc: Global, c: &[Poly], want: Option<(u32, Entries)>) -> Result<bool, AllocError> {
    let Some((rows, entries)) = want else {
        return Ok(false);
    };
    let want = column(alloc, plane(Prime::Three), rows, entries)?;
    Ok(same_columns(c, &want))
}

// A matrix A, a vector v, and the length and the entries of the solution of A * w = v, or none.
type Solved<'a> = (
    Given<'a, 'a, 'a>,
    Entries<'a, 'a>,
    Option<(u32, Entries<'a, 'a>)>,
);

fn solves(alloc: Global, case: &Solved) -> Result<bool, Stop> {
    match lift_of(alloc, case.0, case.1)? {
        Lifted::InImage(w) => Ok(column_is(alloc, &w, case.2)?),
        Lifted::NotInImage(outside) => Ok(case.2.is_none() && outside.column == 1),
    }
}

fn first(inside: Inside) -> Option<u32> {
    match inside {
        Inside::All(_) => None,
        Inside::First(outside) => Some(outside.column),
    }
}

// The first column of m that is outside the image of (x, y), or none.
fn first_outside(alloc: Global, m: Given) -> Result<Option<u32>, Stop> {
    let ring = plane(Prime::Three);
    let mut work = Work::new(100);
    let g = graph(alloc, ring, BOTH, &mut work)?;
    let m = matrix(alloc, ring, m)?;
    if g.rows() != m.rows() {
        return Err(Stop::Memory);
    }
    Ok(first(inside_of(alloc, &m, &g, &mut work)?))
}

// The first unit vector that is outside the image of a, or none.
fn first_unit_outside(alloc: Global, a: Given) -> Result<Option<u32>, Stop> {
    let mut work = Work::new(100);
    let g = graph(alloc, plane(Prime::Three), a, &mut work)?;
    Ok(first(whole_of(alloc, &g, &mut work)?))
}

// Whether the lifts of the columns of m through (x, y) are the columns of w.
fn lifts_are(alloc: Global, m: Given, w: Given) -> Result<bool, Stop> {
    let ring = plane(Prime::Three);
    let mut work = Work::new(100);
    let g = graph(alloc, ring, BOTH, &mut work)?;
    let m = matrix(alloc, ring, m)?;
    if g.rows() != m.rows() {
        return Err(Stop::Memory);
    }
    let found = lift_columns(alloc, &g, &m, &mut work)?;
    Ok(is(alloc, Prime::Three, &found, w)?)
}

const SOLVED: &[Solved] = &[
    (BOTH, &[X], Some((2, &[ONE, ZERO]))),
    (BOTH, &[Y], Some((2, &[ZERO, ONE]))),
    // (y, y) is a solution too, and (0, x + y) is what the syzygy (y, -x) leaves of it
    (BOTH, &[XY_AND_YY], Some((2, &[ZERO, X_AND_Y]))),
    (BOTH, &[ZERO], Some((2, &[ZERO, ZERO]))),
    (BOTH, &[ONE], None),
    // 2 * 2 = 1
    ((1, &[&[TWO]]), &[ONE], Some((1, &[TWO]))),
    ((2, &[&[X, Y]]), &[X, ZERO], None),
    ((2, &[&[X, Y]]), &[XY, YY], Some((1, &[Y]))),
    ((1, &[]), &[X], None),
];

// Columns, and the number of the first that is outside.
const OUTSIDE: &[(Given, Option<u32>)] = &[
    ((1, &[&[X], &[YY]]), None),
    ((1, &[&[X], &[ONE], &[TWO]]), Some(2)),
    ((1, &[]), None),
];

const UNITS_OUTSIDE: &[(Given, Option<u32>)] = &[
    (BOTH, Some(1)),
    ((2, &[&[ONE, X], &[ZERO, ONE]]), None),
    ((2, &[&[ONE, ZERO], &[ZERO, X]]), Some(2)),
];

const LIFTS: &[(Given, Given)] = &[
    ((1, &[&[X], &[YY]]), (2, &[&[ONE, ZERO], &[ZERO, Y]])),
    ((1, &[]), (2, &[])),
];

#[test]
fn vectors_are_lifted_where_they_can_be(rt: HostRuntime) -> Result<(), Fail> {
    for case in SOLVED {
        assert!(rt; solves(rt.alloc(), case)?);
    }
    Ok(())
}

#[test]
fn columns_are_lifted_up_to_the_first_outside(rt: HostRuntime) -> Result<(), Fail> {
    for case in OUTSIDE {
        assert!(rt; first_outside(rt.alloc(), case.0)? == case.1);
    }
    for case in UNITS_OUTSIDE {
        assert!(rt; first_unit_outside(rt.alloc(), case.0)? == case.1);
    }
    for case in LIFTS {
        assert!(rt; lifts_are(rt.alloc(), case.0, case.1)?);
    }
    Ok(())
}
