// Trims against numbers found by hand, and generators of kernels and preimages.
use crate::graph_tests::{
    BOTH, Given, Listed, ONE, TWICE_X, TWO, X, XY, Y, ZERO, is, matrix, plane, same,
};
use crate::{Generators, Graph, Preimage, kernel, preimage, trim};
use fm_gfp::Prime;
use fm_run::{Stop, Work};
use std::alloc::{AllocError, Global};
use std::test::Fail;

const XX: &[Listed] = &[([2, 0], 1)];

// A matrix, the units that its trim needs, and the columns that are kept.
type Kept<'a> = (Given<'a, 'a, 'a>, u32, &'a [u32]);

fn keeps(alloc: Global, case: &Kept) -> Result<bool, Stop> {
    let (a, units, want) = *case;
    let a = matrix(alloc, plane(Prime::Two), a)?;
    let mut work = Work::new(units);
    let kept = trim(alloc, &a, &mut work)?;
    Ok(kept.as_slice() == want && work.left() == 0)
}

// The preimage of b under a, or with no b the kernel of a.
fn preimage_of(alloc: Global, prime: Prime, a: Given, b: Option<Given>) -> Result<Preimage, Stop> {
    let ring = plane(prime);
    let a = matrix(alloc, ring, a)?;
    let mut work = Work::new(100);
    let Some(b) = b else {
        return kernel(alloc, a, &mut work);
    };
    let b = matrix(alloc, ring, b)?;
    if a.rows() != b.rows() {
        return Err(Stop::Memory);
    }
    preimage(alloc, &a, &b, &mut work)
}

// Whether found, x and w are these.
fn generators_are(alloc: Global, g: &Generators, case: &Found) -> Result<bool, AllocError> {
    let same_found = is(alloc, case.0, g.found(), case.3)?;
    let same_x = is(alloc, case.0, g.x(), case.4)?;
    let same_w = is(alloc, case.0, g.w(), case.5)?;
    Ok(same_found && same_x && same_w)
}

fn copy_is_same(alloc: Global, g: &Graph) -> Result<bool, AllocError> {
    let copy = g.copy(alloc)?;
    Ok(same(copy.matrix(), g.matrix()))
}

// A prime, the matrix a and maybe b, and found, x and w.
type Found<'a> = (
    Prime,
    Given<'a, 'a, 'a>,
    Option<Given<'a, 'a, 'a>>,
    Given<'a, 'a, 'a>,
    Given<'a, 'a, 'a>,
    Given<'a, 'a, 'a>,
);

// Whether the generators are these, and a copy of the graph has its matrix.
fn preimage_is(alloc: Global, case: &Found) -> Result<bool, Stop> {
    let p = preimage_of(alloc, case.0, case.1, case.2)?;
    let same = generators_are(alloc, p.generators(), case)?;
    let same_copy = copy_is_same(alloc, p.whole())?;
    Ok(same && same_copy)
}

const KEPT: &[Kept] = &[
    // the second is x times the first: 1 unit to complete the first, 2 to divide, 1 to divide the first by nothing
    ((2, &[&[Y, X], &[XY, XX]]), 4, &[1]),
    ((1, &[&[XX], &[X]]), 5, &[2]),
    ((1, &[&[X], &[X]]), 4, &[1]),
    ((1, &[&[ZERO]]), 1, &[]),
    ((1, &[]), 0, &[]),
];

const TOO_FEW: Kept = ((2, &[&[Y, X], &[XY, XX]]), 3, &[1]);

const FOUND: &[Found] = &[
    // x * y = y * x
    (
        Prime::Two,
        (1, &[&[X]]),
        Some((1, &[&[Y]])),
        (1, &[&[Y]]),
        (1, &[&[X]]),
        (1, &[&[ONE]]),
    ),
    // the syzygies are (0, 1, -1) and (y, -x, 0)
    (
        Prime::Three,
        (1, &[&[X]]),
        Some((1, &[&[Y], &[Y]])),
        (1, &[&[Y]]),
        (2, &[&[TWICE_X, ZERO]]),
        (1, &[&[ZERO], &[ONE]]),
    ),
    // the syzygies are (x, 0, -1), (x^2, -1, 0) and (0, 1, -x): the first entry of one is x times that of another
    (
        Prime::Three,
        (1, &[&[ONE]]),
        Some((1, &[&[XX], &[X]])),
        (1, &[&[X]]),
        (2, &[&[ZERO, TWO]]),
        (1, &[&[X], &[ONE], &[ZERO]]),
    ),
    // kernels
    (
        Prime::Three,
        BOTH,
        None,
        (2, &[&[Y, TWICE_X]]),
        (0, &[&[]]),
        (1, &[&[ONE]]),
    ),
    (
        Prime::Three,
        (1, &[&[ZERO], &[X]]),
        None,
        (2, &[&[ONE, ZERO]]),
        (0, &[&[]]),
        (1, &[&[ONE]]),
    ),
    (
        Prime::Three,
        (1, &[&[X]]),
        None,
        (1, &[]),
        (0, &[]),
        (0, &[]),
    ),
];

#[test]
fn columns_in_the_span_are_dropped(rt: HostRuntime) -> Result<(), Fail> {
    for case in KEPT {
        assert!(rt; keeps(rt.alloc(), case)?);
    }
    assert!(rt; matches!(keeps(rt.alloc(), &TOO_FEW), Err(Stop::Budget)));
    Ok(())
}

#[test]
fn generators_of_preimages(rt: HostRuntime) -> Result<(), Fail> {
    for case in FOUND {
        assert!(rt; preimage_is(rt.alloc(), case)?);
    }
    Ok(())
}
