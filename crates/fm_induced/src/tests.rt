// Maps between modules with one generator, against values found by hand.
ghost use Rattle.std.specs.Prelude.{IfOk, length, ◌≡◌, ◌≤◌};
ghost use Rattle.fm_vec.specs.Components.{AreOver};

use crate::{Onto, first_not_contained, is_one_to_one, is_onto, is_zero, phi};
use fm_gfp::Prime;
use fm_mat::{Column, Matrix};
use fm_mono::{EXPONENT_BOUND, Mono, Order};
use fm_poly::{Poly, Ring, Term};
use fm_run::{Stop, Work};
use fm_syz::{Graph, Inside, graph_of, is_in_image};
use std::alloc::{AllocError, Global};
use std::test::Fail;

const PLANE: Ring = Ring {
    prime: Prime::Three,
    vars: 2,
    order: Order::Grevlex,
};

// The matrix (1), or the matrix of one row without columns.
fn matrix(alloc: Global, full: bool) -> Result<Matrix, AllocError>
    ensures ring { IfOk result (λ m. m.ring ≡ PLANE) }
    ensures rows { IfOk result (λ m. m.rows ≡ 1) }
    ensures count { IfOk result (λ m. length m.columns ≤ 1) }
{
    if full {
        let unit = Matrix::unit(alloc, PLANE, 1)?;
        return Ok(unit);
    }
    Ok(Matrix::new(PLANE, 1, Vec::new(alloc)))
}

fn one(alloc: Global) -> Result<Matrix, AllocError>
    ensures ring { IfOk result (λ m. m.ring ≡ PLANE) }
    ensures rows { IfOk result (λ m. m.rows ≡ 1) }
    ensures count { IfOk result (λ m. length m.columns ≡ 1) }
{
    let unit = Matrix::unit(alloc, PLANE, 1)?;
    Ok(unit)
}

// The matrix (0).
fn zero(alloc: Global) -> Result<Matrix, AllocError>
    ensures ring { IfOk result (λ m. m.ring ≡ PLANE) }
    ensures rows { IfOk result (λ m. m.rows ≡ 1) }
    ensures count { IfOk result (λ m. length m.columns ≡ 1) }
{
    let mut entries = Vec::new(alloc);
    entries.push(Poly::zero(alloc, PLANE))?;
    let mut columns = Vec::new(alloc);
    columns.push(Column::new(entries))?;
    Ok(Matrix::new(PLANE, 1, columns))
}

#[tactic(auto, using(fm_mono::proofs::Bounds::within_more))]
fn mono(exponent: u32) -> Mono
    ensures { length result ≡ 2 }
{
    Mono::of(&[exponent.min(EXPONENT_BOUND), 0])
}

// A power of x.
fn power(alloc: Global, exponent: u32) -> Result<Poly, AllocError>
    ensures { IfOk result (λ f. f.ring ≡ PLANE) }
{
    let term = Term {
        mono: mono(exponent),
        coeff: PLANE.prime.element(1),
    };
    let f = Poly::from_terms(alloc, PLANE, &[term])?;
    Ok(f)
}

// Two powers of x.
fn powers(alloc: Global, exponents: [u32; 2]) -> Result<Vec<Poly>, AllocError>
    ensures over { IfOk result (λ out. AreOver PLANE out.items) }
    ensures count { IfOk result (λ out. length out.items ≡ 2) }
{
    let [a, b] = exponents;
    let mut out = Vec::new(alloc);
    out.push(power(alloc, a)?)?;
    out.push(power(alloc, b)?)?;
    Ok(out)
}

fn graph(alloc: Global, full: bool) -> Result<Graph, Stop>
    ensures ring { IfOk result (λ g. g.matrix.ring ≡ PLANE) }
    ensures rows { IfOk result (λ g. g.matrix.rows ≡ 1) }
{
    let m = matrix(alloc, full)?;
    graph_of(alloc, m, &mut Work::new(99))
}

fn is_all(inside: &Inside) -> bool {
    matches!(inside, Inside::All(_))
}

// The identity has the matrix (1).
fn keeps_one(alloc: Global, units: u32) -> Result<bool, Stop> {
    let unit = one(alloc)?;
    let g = graph(alloc, true)?;
    match phi(alloc, &unit, &unit, &g, &mut Work::new(units)) {
        Ok(m) => Ok(m.rows() == 1 && m.cols() == 1),
        Err(stopped) => Err(stopped.stop),
    }
}

// Whether (1) is zero modulo everything, or modulo nothing.
fn kills(alloc: Global, full: bool) -> Result<bool, Stop> {
    let unit = one(alloc)?;
    let g = graph(alloc, full)?;
    match is_zero(alloc, &unit, &g, &mut Work::new(99)) {
        Ok(inside) => Ok(is_all(&inside)),
        Err(stopped) => Err(stopped.stop),
    }
}

// Whether (1) is one to one, from the module with this kernel to the one with that.
fn embeds(alloc: Global, source: bool, target: bool) -> Result<bool, Stop> {
    let unit = one(alloc)?;
    let k = matrix(alloc, target)?;
    let g = graph(alloc, source)?;
    match is_one_to_one(alloc, &unit, &k, &g, &mut Work::new(99)) {
        Ok(x) => Ok(is_all(&x.inside)),
        Err(stopped) => Err(stopped.stop),
    }
}

// The first of two powers that is not in the ideal of two others.
fn outside(
    alloc: Global,
    source: [u32; 2],
    target: [u32; 2],
    units: u32,
) -> Result<Option<u32>, Stop> {
    let source = powers(alloc, source)?;
    let target = powers(alloc, target)?;
    match first_not_contained(alloc, PLANE, &source, &target, &mut Work::new(units)) {
        Ok(number) => Ok(number),
        Err(stopped) => Err(stopped.stop),
    }
}

// How many links it takes until the map with this matrix is onto, under the morphism (1) or (0).
fn covers(
    alloc: Global,
    relations: bool,
    image: bool,
    one_to_one: bool,
    units: u32,
) -> Result<Option<usize>, Stop> {
    let n = matrix(alloc, relations)?;
    let image = matrix(alloc, image)?;
    let u = if one_to_one {
        one(alloc)?
    } else {
        zero(alloc)?
    };
    match is_onto(alloc, &n, &image, &u, &mut Work::new(units)) {
        Ok(Onto::At { links, .. }) => Ok(Some(links.len())),
        Ok(Onto::Never { .. }) => Ok(None),
        Err(stopped) => Err(stopped.stop),
    }
}

// Whether a vector of two powers is a multiple of another.
fn is_multiple(alloc: Global, of: [u32; 2], vector: [u32; 2], units: u32) -> Result<bool, Stop> {
    let mut columns = Vec::new(alloc);
    columns.push(Column::new(powers(alloc, of)?))?;
    let a = Matrix::new(PLANE, 2, columns);
    let v = powers(alloc, vector)?;
    is_in_image(alloc, &a, &v, &mut Work::new(units))
}

#[test]
fn images(rt: HostRuntime) -> Result<(), Fail> {
    let alloc = rt.alloc();
    assert!(rt; matches!(is_multiple(alloc, [1, 2], [2, 3], 99), Ok(true)));
    assert!(rt; matches!(is_multiple(alloc, [1, 2], [2, 2], 99), Ok(false)));
    assert!(rt; matches!(is_multiple(alloc, [1, 2], [2, 3], 0), Err(Stop::Budget)));
    Ok(())
}

#[test]
fn containments(rt: HostRuntime) -> Result<(), Fail> {
    let alloc = rt.alloc();
    assert!(rt; matches!(outside(alloc, [2, 3], [2, 5], 99), Ok(None)));
    assert!(rt; matches!(outside(alloc, [2, 3], [1, 2], 99), Ok(Some(1))));
    assert!(rt; matches!(outside(alloc, [2, 3], [4, 1], 99), Ok(Some(2))));
    assert!(rt; matches!(outside(alloc, [0, 3], [4, 0], 99), Ok(None)));
    assert!(rt; matches!(outside(alloc, [2, 3], [2, 5], 0), Err(Stop::Budget)));
    Ok(())
}

#[test]
fn onto_maps(rt: HostRuntime) -> Result<(), Fail> {
    let alloc = rt.alloc();
    assert!(rt; matches!(covers(alloc, true, false, true, 99), Ok(Some(0))));
    assert!(rt; matches!(covers(alloc, false, true, true, 99), Ok(Some(0))));
    assert!(rt; matches!(covers(alloc, false, false, false, 99), Ok(Some(1))));
    assert!(rt; matches!(covers(alloc, false, false, true, 99), Ok(None)));
    assert!(rt; matches!(covers(alloc, false, false, true, 0), Err(Stop::Budget)));
    Ok(())
}

#[test]
fn maps(rt: HostRuntime) -> Result<(), Fail> {
    let alloc = rt.alloc();
    assert!(rt; matches!(keeps_one(alloc, 99), Ok(true)));
    assert!(rt; matches!(keeps_one(alloc, 0), Err(Stop::Budget)));
    assert!(rt; matches!(kills(alloc, true), Ok(true)));
    assert!(rt; matches!(kills(alloc, false), Ok(false)));
    assert!(rt; matches!(embeds(alloc, true, true), Ok(true)));
    assert!(rt; matches!(embeds(alloc, false, false), Ok(true)));
    assert!(rt; matches!(embeds(alloc, false, true), Ok(false)));
    assert!(rt; matches!(embeds(alloc, true, false), Ok(true)));
    Ok(())
}
