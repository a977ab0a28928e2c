// The operations against values found by hand.
ghost use Rattle.std.specs.Prelude.{All, IfOk, length, ◌≡◌};
ghost use Rattle.fm_poly.specs.Polys.{IsTermOf};

use crate::{Poly, PolyError, Ring, Term};
use fm_gfp::Prime;
use fm_mono::{EXPONENT_BOUND, Mono, Order};
use std::alloc::{AllocError, Global};
use std::test::Fail;

// Terms in x and y: both exponents and the coefficient.
type Listed = ([u32; 2], u64);

const PLANE: Ring = Ring {
    prime: Prime::Five,
    vars: 2,
    order: Order::Grevlex,
};

// The monomial with these exponents, none of which passes the bound.
#[tactic(auto, using(fm_mono::proofs::Bounds::within_more))]
fn mono(exponents: [u32; 2]) -> Mono
    ensures { length result ≡ 2 }
{
    let [x, y] = exponents;
    Mono::of(&[x.min(EXPONENT_BOUND), y.min(EXPONENT_BOUND)])
}

fn listed(alloc: Global, list: &[Listed]) -> Result<Vec<Term>, AllocError>
    ensures { IfOk result (λ v. All (IsTermOf PLANE) v.items) }
{
    let mut terms = Vec::new(alloc);
    for t in list {
        terms.push(Term {
            mono: mono(t.0),
            coeff: PLANE.prime.element(t.1),
        })?;
    }
    Ok(terms)
}

fn poly(alloc: Global, list: &[Listed]) -> Result<Poly, AllocError>
    ensures { IfOk result (λ f. f.ring ≡ PLANE) }
{
    let terms = listed(alloc, list)?;
    let f = Poly::from_terms(alloc, PLANE, &terms)?;
    Ok(f)
}

fn shows(alloc: Global, f: &Poly, want: &[Listed]) -> Result<bool, AllocError> {
    let terms = listed(alloc, want)?;
    Ok(f.terms() == terms.as_slice())
}

fn rebuilt(alloc: Global, f: &Poly) -> Result<Poly, AllocError> {
    let terms = Vec::from_slice(alloc, f.terms())?;
    Ok(Poly::from_canonical(f.ring(), terms))
}

fn sum_is(alloc: Global, f: &[Listed], g: &[Listed], want: &[Listed]) -> Result<bool, AllocError> {
    let f = poly(alloc, f)?;
    let g = poly(alloc, g)?;
    let sum = f.add(alloc, &g)?;
    shows(alloc, &sum, want)
}

fn multiple_is(alloc: Global, c: u64, f: &[Listed], want: &[Listed]) -> Result<bool, AllocError> {
    let f = poly(alloc, f)?;
    let multiple = f.scale(alloc, PLANE.prime.element(c))?;
    shows(alloc, &multiple, want)
}

fn product(alloc: Global, f: &[Listed], g: &[Listed]) -> Result<Poly, PolyError> {
    let f = poly(alloc, f)?;
    let g = poly(alloc, g)?;
    f.mul(alloc, &g)
}

fn power(alloc: Global, f: &[Listed], k: u32) -> Result<Poly, PolyError> {
    let f = poly(alloc, f)?;
    f.power(alloc, k)
}

fn twist(alloc: Global, f: &[Listed], e: u8) -> Result<Poly, PolyError> {
    let f = poly(alloc, f)?;
    f.twist(alloc, e)
}

#[test]
fn terms_in_any_order_are_summed(rt: HostRuntime) -> Result<(), Fail> {
    let alloc = rt.alloc();
    let f = poly(
        alloc,
        &[
            ([0, 2], 1),
            ([1, 0], 3),
            ([0, 2], 4),
            ([0, 0], 2),
            ([1, 0], 4),
            ([3, 1], 0),
            ([0, 5], 1),
        ],
    )?;
    let want = [([0, 5], 1), ([1, 0], 2), ([0, 0], 2)];
    assert!(rt; shows(alloc, &f, &want)?);
    assert!(rt; shows(alloc, &f.copy(alloc)?, &want)?);
    assert!(rt; shows(alloc, &rebuilt(alloc, &f)?, &want)?);
    assert_eq!(rt; f.ring(), PLANE);
    assert!(rt; shows(alloc, &poly(alloc, &[([1, 1], 2), ([1, 1], 3)])?, &[])?);
    assert!(rt; shows(alloc, &Poly::zero(alloc, PLANE), &[])?);
    Ok(())
}

#[test]
fn sums_and_multiples(rt: HostRuntime) -> Result<(), Fail> {
    let alloc = rt.alloc();
    let f = [([2, 0], 1), ([0, 1], 3)];
    let g = [([2, 0], 4), ([1, 0], 1), ([0, 1], 3), ([0, 0], 1)];
    assert!(rt; sum_is(alloc, &f, &g, &[([1, 0], 1), ([0, 1], 1), ([0, 0], 1)])?);
    assert!(rt; sum_is(alloc, &f, &[], &f)?);
    assert!(rt; multiple_is(alloc, 3, &f, &[([2, 0], 3), ([0, 1], 4)])?);
    assert!(rt; multiple_is(alloc, 0, &f, &[])?);
    Ok(())
}

// (x + y) (x - y), (x + y)^3, and (x + y)^5 = x^5 + y^5.
#[test]
fn products_twists_and_powers(rt: HostRuntime) -> Result<(), Fail> {
    let alloc = rt.alloc();
    let f = [([1, 0], 1), ([0, 1], 1)];
    let cube = [([3, 0], 1), ([2, 1], 3), ([1, 2], 3), ([0, 3], 1)];
    let fifth = [([5, 0], 1), ([0, 5], 1)];
    let difference = [([1, 0], 1), ([0, 1], 4)];
    assert!(rt;
        shows(
            alloc,
            &product(alloc, &f, &difference)?,
            &[([2, 0], 1), ([0, 2], 4)]
        )?
    );
    assert!(rt; shows(alloc, &product(alloc, &f, &[])?, &[])?);
    assert!(rt; shows(alloc, &power(alloc, &f, 3)?, &cube)?);
    assert!(rt; shows(alloc, &power(alloc, &f, 5)?, &fifth)?);
    assert!(rt; shows(alloc, &twist(alloc, &f, 1)?, &fifth)?);
    assert!(rt; shows(alloc, &power(alloc, &f, 0)?, &[([0, 0], 1)])?);
    assert!(rt; shows(alloc, &power(alloc, &[], 0)?, &[([0, 0], 1)])?);
    Ok(())
}

#[test]
fn exponents_meet_the_bound(rt: HostRuntime) -> Result<(), Fail> {
    let alloc = rt.alloc();
    let f = [([3_355_443, 0], 2), ([0, 0], 1)];
    assert!(rt;
        shows(
            alloc,
            &twist(alloc, &f, 1)?,
            &[([16_777_215, 0], 2), ([0, 0], 1)]
        )?
    );
    assert!(rt; matches!(twist(alloc, &f, 2), Err(PolyError::Exponent)));
    assert!(rt; product(alloc, &f, &[([13_421_772, 9], 1)]).is_ok());
    let above = [([0, 0], 1), ([13_421_773, 0], 1)];
    assert!(rt; matches!(product(alloc, &f, &above), Err(PolyError::Exponent)));
    assert!(rt; power(alloc, &f, 5).is_ok());
    assert!(rt; matches!(power(alloc, &f, 6), Err(PolyError::Exponent)));
    Ok(())
}

fn square(alloc: Global, prime: Prime, mono: Mono, order: Order) -> Result<Poly, PolyError> {
    let ring = Ring {
        prime,
        vars: mono.vars(),
        order,
    };
    let term = Term {
        mono,
        coeff: prime.element(3),
    };
    let f = Poly::from_terms(alloc, ring, &[term])?;
    f.mul(alloc, &f)
}

#[test]
fn one_and_eight_variables(rt: HostRuntime) -> Result<(), Fail> {
    let alloc = rt.alloc();
    let f = square(alloc, Prime::Seven, Mono::of(&[1]), Order::Lex)?;
    assert!(rt; matches!(f.terms(), [t] if t.mono == Mono::of(&[2]) && t.coeff.number() == 2));
    let last = Mono::of(&[0, 0, 0, 0, 0, 0, 0, 1]);
    let g = square(alloc, Prime::Thirteen, last, Order::Deglex)?;
    let twice = Mono::of(&[0, 0, 0, 0, 0, 0, 0, 2]);
    assert!(rt; matches!(g.terms(), [t] if t.mono == twice && t.coeff.number() == 9));
    Ok(())
}
