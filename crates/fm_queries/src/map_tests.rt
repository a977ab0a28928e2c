// A map between modules of ideals that are not nested is refused.
ghost use Rattle.std.specs.Prelude.{IfOk, length, ◌≡◌, ◌≤◌};
ghost use Rattle.fm_vec.specs.Components.{AreOver};

use crate::{Refusal, Unanswered, decide_map};
use fm_gfp::Prime;
use fm_mono::{EXPONENT_BOUND, Mono, Order};
use fm_poly::{Poly, Ring, Term};
use fm_run::Work;
use std::alloc::{AllocError, Global};
use std::test::Fail;

// The exponents of x, y, z and w.
type Exponents = [u32; 4];

const SPACE: Ring = Ring {
    prime: Prime::Two,
    vars: 4,
    order: Order::Grevlex,
};

// The monomial with these exponents, none of which passes the bound.
#[tactic(auto, using(fm_mono::proofs::Bounds::within_more))]
fn mono(exponents: Exponents) -> Mono
    ensures { length result ≡ 4 }
{
    let [x, y, z, w] = exponents;
    Mono::of(&[
        x.min(EXPONENT_BOUND),
        y.min(EXPONENT_BOUND),
        z.min(EXPONENT_BOUND),
        w.min(EXPONENT_BOUND),
    ])
}

fn monomial(alloc: Global, exponents: Exponents) -> Result<Poly, AllocError>
    ensures { IfOk result (λ f. f.ring ≡ SPACE) }
{
    let term = Term {
        mono: mono(exponents),
        coeff: SPACE.prime.element(1),
    };
    let f = Poly::from_terms(alloc, SPACE, &[term])?;
    Ok(f)
}

// The first nine of these monomials.
fn ideal(alloc: Global, monomials: &[Exponents]) -> Result<Vec<Poly>, AllocError>
    ensures over { IfOk result (λ out. AreOver SPACE out.items) }
    ensures few { IfOk result (λ out. length out.items ≤ 9) }
{
    let mut out = Vec::new(alloc);
    for i in 0..9_u32 {
        let Some(exponents) = monomials.get(i as usize) else {
            return Ok(out);
        };
        out.push(monomial(alloc, *exponents)?)?;
    }
    Ok(out)
}

// The number of the generator for which the map is refused.
fn refused(alloc: Global, source: &[Poly], target: &[Poly]) -> Option<u32>
    requires source { AreOver SPACE source.now }
    requires target { AreOver SPACE target.now }
    requires few_source { length source.now ≤ 9 }
    requires few_target { length target.now ≤ 9 }
{
    let mut work = Work::new(9999);
    match decide_map(alloc, SPACE, source, target, 1, &mut work) {
        Err(Unanswered::Refused(Refusal::NotContained { generator })) => Some(generator),
        _ => None,
    }
}

fn refused_for(
    alloc: Global,
    source: &[Exponents],
    target: &[Exponents],
) -> Result<Option<u32>, AllocError> {
    let source = ideal(alloc, source)?;
    let target = ideal(alloc, target)?;
    Ok(refused(alloc, &source, &target))
}

// x*y lies in (x), and y does not.
#[test]
fn a_map_is_refused_for_the_first_generator_outside(rt: HostRuntime) -> Result<(), Fail> {
    let outside = refused_for(rt.alloc(), &[[1, 0, 0, 0]], &[[1, 1, 0, 0], [0, 1, 0, 0]]);
    assert!(rt; matches!(outside, Ok(Some(2))));
    Ok(())
}
