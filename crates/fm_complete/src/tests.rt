// Divisions against values found by hand and by the worked rows of the report.
ghost use Rattle.std.specs.Prelude.{All, IfOk, length, ◌≡◌};
ghost use Rattle.fm_poly.specs.Polys.{IsTermOf};

use crate::{Division, divide};
use fm_gfp::Prime;
use fm_mono::{EXPONENT_BOUND, Mono, Order};
use fm_poly::{Poly, Ring, Term};
use fm_run::{Stop, Work};
use fm_vec::Vector;
use std::alloc::{AllocError, Global};
use std::test::Fail;

// Terms in x and y: both exponents and the coefficient.
type Listed = ([u32; 2], u64);

const PLANE: Ring = Ring {
    prime: Prime::Five,
    vars: 2,
    order: Order::Lex,
};

fn poly(alloc: Global, list: &[Listed]) -> Result<Poly, AllocError>
    ensures { IfOk result (λ f. f.ring ≡ PLANE) }
{
    let terms = listed(alloc, list)?;
    let f = Poly::from_terms(alloc, PLANE, &terms)?;
    Ok(f)
}

// The monomial with these exponents, none of which passes the bound.
#[tactic(auto, using(fm_mono::proofs::Bounds::within_more))]
fn mono(exponents: [u32; 2]) -> Mono
    ensures { length result ≡ 2 }
{
    let [x, y] = exponents;
    Mono::of(&[x.min(EXPONENT_BOUND), y.min(EXPONENT_BOUND)])
}

fn listed(alloc: Global, list: &[Listed]) -> Result<Vec<Term>, AllocError>
    ensures { IfOk result (λ v. All (IsTermOf PLANE) v.items) }
{
    let mut terms = Vec::new(alloc);
    for t in list {
        terms.push(Term {
            mono: mono(t.0),
            coeff: PLANE.prime.element(t.1),
        })?;
    }
    Ok(terms)
}

fn pair(alloc: Global, f: &[Listed], g: &[Listed]) -> Result<Vector, AllocError>
    ensures ring { IfOk result (λ v. v.ring ≡ PLANE) }
    ensures rows { IfOk result (λ v. v.rows ≡ 2) }
{
    let column = [poly(alloc, f)?, poly(alloc, g)?];
    let v = Vector::from_column(alloc, PLANE, &column)?;
    Ok(v)
}

fn shows(alloc: Global, f: &Poly, want: &[Listed]) -> Result<bool, AllocError> {
    let terms = listed(alloc, want)?;
    Ok(f.terms() == terms.as_slice())
}

// The division by a and b, and the units left.
#[tactic(auto, using(fm_vec::proofs::Proper::not_empty))]
fn by_two(
    alloc: Global,
    a: Vector,
    b: Vector,
    v: &Vector,
    units: u32,
) -> Result<(Division, u32), Stop>
    requires a_ring { a.ring ≡ v.now.ring }
    requires b_ring { b.ring ≡ v.now.ring }
    requires a_rows { a.rows ≡ v.now.rows }
    requires b_rows { b.rows ≡ v.now.rows }
{
    let Some(_first) = a.head() else {
        return Err(Stop::Memory);
    };
    let Some(_second) = b.head() else {
        return Err(Stop::Memory);
    };
    let mut work = Work::new(units);
    let members = [a, b];
    let division = divide(alloc, &members, v, &mut work)?;
    Ok((division, work.left()))
}

// xy^2 + 2 by 2xy + 2 and xy: the first member is taken, the quotient is 3y, and what is left is 4y + 2.
fn by_the_first(alloc: Global, units: u32) -> Result<(Division, u32), Stop> {
    let a = pair(alloc, &[([1, 1], 2), ([0, 0], 2)], &[])?;
    let b = pair(alloc, &[([1, 1], 1)], &[])?;
    let v = pair(alloc, &[([1, 2], 1), ([0, 0], 2)], &[])?;
    by_two(alloc, a, b, &v, units)
}

#[test]
fn the_first_member_is_taken(rt: HostRuntime) -> Result<(), Fail> {
    let alloc = rt.alloc();
    let (division, left) = by_the_first(alloc, 9)?;
    assert!(rt; left == 7);
    assert!(rt; division.by.as_slice() == [1].as_slice());
    assert!(rt; division.quotients.len() == 2);
    assert!(rt; shows(alloc, &division.quotients[0], &[([0, 1], 3)])?);
    assert!(rt; shows(alloc, &division.quotients[1], &[])?);
    let rest = division.rest.to_column(alloc)?;
    assert!(rt; rest.len() == 2);
    assert!(rt; shows(alloc, &rest[0], &[([0, 1], 4), ([0, 0], 2)])?);
    assert!(rt; shows(alloc, &rest[1], &[])?);
    Ok(())
}

// One unit for the vector, and one for each head reduction.
#[test]
fn two_units_are_needed(rt: HostRuntime) -> Result<(), Fail> {
    let alloc = rt.alloc();
    assert!(rt; matches!(by_the_first(alloc, 0), Err(Stop::Budget)));
    assert!(rt; matches!(by_the_first(alloc, 1), Err(Stop::Budget)));
    assert!(rt; by_the_first(alloc, 2)?.1 == 0);
    Ok(())
}

// x^2 y by x - y and y^3: x^2 y = (xy + y^2) (x - y) + y^3, so the steps are 1, 1 and 2.
fn down_to_zero(alloc: Global) -> Result<(Division, u32), Stop> {
    let a = pair(alloc, &[], &[([1, 0], 1), ([0, 1], 4)])?;
    let b = pair(alloc, &[], &[([0, 3], 1)])?;
    let v = pair(alloc, &[], &[([2, 1], 1)])?;
    by_two(alloc, a, b, &v, 10)
}

#[test]
fn a_member_of_the_span_leaves_nothing(rt: HostRuntime) -> Result<(), Fail> {
    let alloc = rt.alloc();
    let (division, left) = down_to_zero(alloc)?;
    assert!(rt; left == 6);
    assert!(rt; division.by.as_slice() == [1, 1, 2].as_slice());
    assert!(rt; division.quotients.len() == 2);
    assert!(rt; shows(alloc, &division.quotients[0], &[([1, 1], 1), ([0, 2], 1)])?);
    assert!(rt; shows(alloc, &division.quotients[1], &[([0, 0], 1)])?);
    assert!(rt; division.rest.head().is_none());
    Ok(())
}

// x y^10000000 by x - y^10000000: the multiple has y^20000000.
fn past_the_bound(alloc: Global, units: u32) -> Result<(Division, u32), Stop> {
    let a = pair(alloc, &[([1, 0], 1), ([0, 10_000_000], 4)], &[])?;
    let b = pair(alloc, &[([0, 0], 1)], &[])?;
    let v = pair(alloc, &[([1, 10_000_000], 1)], &[])?;
    by_two(alloc, a, b, &v, units)
}

// The unit is spent first: without one the budget ends the division.
#[test]
fn the_bound_ends_a_division(rt: HostRuntime) -> Result<(), Fail> {
    let alloc = rt.alloc();
    assert!(rt; matches!(past_the_bound(alloc, 2), Err(Stop::Exponent)));
    assert!(rt; matches!(past_the_bound(alloc, 1), Err(Stop::Budget)));
    Ok(())
}
