// The operations against values found by hand.
ghost use Rattle.std.specs.Prelude.{All, IfOk, length, ◌≡◌};
ghost use Rattle.fm_poly.specs.Polys.{IsTermOf};

use crate::Vector;
use fm_gfp::Prime;
use fm_mono::{EXPONENT_BOUND, Mono, Order};
use fm_poly::{Poly, PolyError, Ring, Term};
use fm_term::VTerm;
use std::alloc::{AllocError, Global};
use std::test::Fail;

// Terms in x and y: both exponents and the coefficient.
type Listed = ([u32; 2], u64);

const PLANE: Ring = Ring {
    prime: Prime::Five,
    vars: 2,
    order: Order::Grevlex,
};

fn poly(alloc: Global, list: &[Listed]) -> Result<Poly, AllocError>
    ensures { IfOk result (λ f. f.ring ≡ PLANE) }
{
    let terms = listed(alloc, list)?;
    let f = Poly::from_terms(alloc, PLANE, &terms)?;
    Ok(f)
}

// The monomial with these exponents, none of which passes the bound.
#[tactic(auto, using(fm_mono::proofs::Bounds::within_more))]
fn mono(exponents: [u32; 2]) -> Mono
    ensures { length result ≡ 2 }
{
    let [x, y] = exponents;
    Mono::of(&[x.min(EXPONENT_BOUND), y.min(EXPONENT_BOUND)])
}

fn listed(alloc: Global, list: &[Listed]) -> Result<Vec<Term>, AllocError>
    ensures { IfOk result (λ v. All (IsTermOf PLANE) v.items) }
{
    let mut terms = Vec::new(alloc);
    for t in list {
        terms.push(Term {
            mono: mono(t.0),
            coeff: PLANE.prime.element(t.1),
        })?;
    }
    Ok(terms)
}

fn pair(alloc: Global, f: &[Listed], g: &[Listed]) -> Result<Vector, AllocError>
    ensures ring { IfOk result (λ v. v.ring ≡ PLANE) }
    ensures rows { IfOk result (λ v. v.rows ≡ 2) }
{
    let column = [poly(alloc, f)?, poly(alloc, g)?];
    let v = Vector::from_column(alloc, PLANE, &column)?;
    Ok(v)
}

// Whether the terms are these: a component, the exponents and the coefficient.
fn shows(v: &Vector, want: &[(u32, [u32; 2], u64)]) -> bool {
    let terms = v.terms();
    if terms.len() != want.len() {
        return false;
    }
    for (t, w) in terms.iter().zip(want) {
        let expected = VTerm {
            component: w.0,
            mono: mono(w.1),
            coeff: PLANE.prime.element(w.2),
        };
        if *t != expected {
            return false;
        }
    }
    true
}

fn difference(alloc: Global) -> Result<bool, PolyError> {
    // (x^2 + 1, y) - x * (x, 1) = (1, 4x + y)
    let v = pair(alloc, &[([2, 0], 1), ([0, 0], 1)], &[([0, 1], 1)])?;
    let b = pair(alloc, &[([1, 0], 1)], &[([0, 0], 1)])?;
    let w = v.sub_multiple(alloc, PLANE.prime.element(1), Mono::of(&[1, 0]), &b)?;
    let same = v.sub_multiple(alloc, PLANE.prime.element(0), Mono::of(&[1, 0]), &b)?;
    Ok(
        shows(&w, &[(1, [0, 0], 1), (2, [1, 0], 4), (2, [0, 1], 1)])
            && shows(&same, &[(1, [2, 0], 1), (1, [0, 0], 1), (2, [0, 1], 1)]),
    )
}

#[test]
fn a_multiple_is_subtracted(rt: HostRuntime) -> Result<(), Fail> {
    assert!(rt; difference(rt.alloc())?);
    Ok(())
}

#[tactic(auto, using(crate::proofs::Proper::not_empty))]
fn monic(alloc: Global, v: &Vector) -> Result<Option<Vector>, AllocError> {
    let Some(_head) = v.head() else {
        return Ok(None);
    };
    let monic = v.monic(alloc)?;
    Ok(Some(monic))
}

#[test]
fn the_inverse_of_3_modulo_5_is_2(rt: HostRuntime) -> Result<(), Fail> {
    let alloc = rt.alloc();
    let v = pair(alloc, &[([1, 0], 3)], &[([0, 0], 1)])?;
    let Some(m) = monic(alloc, &v)? else {
        return Err(Fail::new("the vector has no head"));
    };
    assert!(rt; shows(&m, &[(1, [1, 0], 1), (2, [0, 0], 2)]));
    Ok(())
}

#[tactic(auto, using(crate::proofs::Proper::have_s_vector))]
fn s_vector(alloc: Global, f: &Vector, g: &Vector) -> Result<Option<Vector>, PolyError>
    requires ring { g.now.ring ≡ f.now.ring }
    requires rows { g.now.rows ≡ f.now.rows }
{
    let Some(t) = f.head() else {
        return Ok(None);
    };
    let Some(u) = g.head() else {
        return Ok(None);
    };
    if t.coeff.number() != 1 || u.coeff.number() != 1 || t.component != u.component {
        return Ok(None);
    }
    let s = f.s_vector(alloc, g)?;
    Ok(Some(s))
}

fn of_two_pairs(alloc: Global) -> Result<Option<Vector>, PolyError> {
    let f = pair(alloc, &[([2, 0], 1)], &[([0, 0], 1)])?;
    let g = pair(alloc, &[([1, 1], 1)], &[([0, 1], 1)])?;
    s_vector(alloc, &f, &g)
}

// y (x^2, 1) - x (xy, y) = (0, y - xy).
#[test]
fn the_heads_of_an_s_vector_cancel(rt: HostRuntime) -> Result<(), Fail> {
    let alloc = rt.alloc();
    let Some(s) = of_two_pairs(alloc)? else {
        return Err(Fail::new("the vector has no head"));
    };
    assert!(rt; shows(&s, &[(2, [1, 1], 4), (2, [0, 1], 1)]));
    Ok(())
}

#[test]
fn a_column_comes_back(rt: HostRuntime) -> Result<(), Fail> {
    let alloc = rt.alloc();
    let v = pair(alloc, &[], &[([1, 0], 1), ([0, 1], 2)])?;
    assert!(rt; v.length() == 2);
    assert!(rt; shows(&v, &[(2, [1, 0], 1), (2, [0, 1], 2)]));
    let column = v.to_column(alloc)?;
    assert!(rt; column.len() == 2);
    let same = Vector::from_column(alloc, PLANE, &column)?;
    assert!(rt; shows(&same, &[(2, [1, 0], 1), (2, [0, 1], 2)]));
    Ok(())
}

fn twist_of(alloc: Global, f: &[Listed], e: u8) -> Result<Vector, PolyError> {
    let v = pair(alloc, f, &[([0, 0], 1)])?;
    v.twist(alloc, e)
}

#[test]
fn a_twist_multiplies_exponents(rt: HostRuntime) -> Result<(), Fail> {
    let alloc = rt.alloc();
    let v = twist_of(alloc, &[([1, 2], 3)], 2)?;
    assert!(rt; shows(&v, &[(1, [25, 50], 3), (2, [0, 0], 1)]));
    assert!(rt;
        matches!(
            twist_of(alloc, &[([3_355_444, 0], 1)], 1),
            Err(PolyError::Exponent)
        )
    );
    Ok(())
}
