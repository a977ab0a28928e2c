// Whether a vector is a coboundary of its own stage, on classes whose answers are easily found by hand: the coboundaries of stage e are the multiples
// of (x*y)^q for q = 3^e.
ghost use Rattle.std.specs.Prelude.{IfOk, length, ◌≡◌, ◌≤◌};
ghost use Rattle.fm_vec.specs.Components.{AreOver};

use fm_gfp::Prime;
use fm_mono::{EXPONENT_BOUND, Mono, Order};
use fm_poly::{Poly, Ring, Term};
use fm_queries::is_zero_at;
use fm_resolve::{Resolution, resolve};
use fm_run::{Side, Stop, Work};
use std::alloc::{AllocError, Global};
use std::test::Fail;

const PLANE: Ring = Ring {
    prime: Prime::Three,
    vars: 2,
    order: Order::Grevlex,
};

// The exponents of x and y, the stage, and whether the monomial is a coboundary.
const CLASSES: [([u32; 2], u8, bool); 5] = [
    ([2, 1], 0, true),
    ([1, 0], 0, false),
    ([2, 1], 1, false),
    ([4, 3], 1, true),
    ([8, 9], 2, false),
];

// The monomial with these exponents, none of which passes the bound.
#[tactic(auto, using(fm_mono::proofs::Bounds::within_more))]
fn mono(exponents: [u32; 2]) -> Mono
    ensures { length result ≡ 2 }
{
    let [x, y] = exponents;
    Mono::of(&[x.min(EXPONENT_BOUND), y.min(EXPONENT_BOUND)])
}

fn one_monomial(alloc: Global, exponents: [u32; 2]) -> Result<Vec<Poly>, AllocError>
    ensures over { IfOk result (λ out. AreOver PLANE out.items) }
    ensures one { IfOk result (λ out. length out.items ≡ 1) }
{
    let term = Term {
        mono: mono(exponents),
        coeff: PLANE.prime.element(1),
    };
    let mut out = Vec::new(alloc);
    out.push(Poly::from_terms(alloc, PLANE, &[term])?)?;
    Ok(out)
}

// Whether z is a coboundary of degree 1 and stage e, where the first matrix has one column.
fn is_zero(
    alloc: Global,
    resolution: &Resolution,
    e: u8,
    z: &[Poly],
    work: &mut Work,
) -> Result<bool, Stop>
    requires degree { 1 ≤ length resolution.now.next }
    requires over { AreOver resolution.now.first.matrix.ring z.now }
    requires one { length z.now ≡ 1 }
{
    if resolution.first().width() != 1 {
        return Err(Stop::Memory);
    }
    is_zero_at(alloc, resolution, 1, e, z, work)
}

// The same of a monomial, for the ideal of x*y.
fn is_multiple(alloc: Global, exponents: [u32; 2], e: u8) -> Result<bool, Stop> {
    let product = one_monomial(alloc, [1, 1])?;
    let z = one_monomial(alloc, exponents)?;
    let mut work = Work::new(99);
    match resolve(alloc, Side::Alone, PLANE, &product, 1, &mut work) {
        Ok(resolution) => is_zero(alloc, &resolution, e, &z, &mut work),
        Err(stopped) => Err(stopped.stop),
    }
}

#[test]
fn multiples_are_coboundaries(rt: HostRuntime) -> Result<(), Fail> {
    for (exponents, e, want) in CLASSES {
        assert_eq!(rt; is_multiple(rt.alloc(), exponents, e)?, want);
    }
    Ok(())
}
