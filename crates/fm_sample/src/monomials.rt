// Drawn monomials.
ghost use Rattle.std.specs.Prelude.{◌++◌, ◌∷◌, ◌≡◌, [], IfOk, OnOk, length, true};
ghost use Rattle.fm_mono.specs.Bounded.{is_bounded};
ghost use Rattle.fm_sample.specs.Draws.{drawn, next};
ghost use Rattle.fm_sample.specs.Samples.{exponents, monomial as monomial_value, monomials, past};

use crate::draws::Draws;
use fm_gfp::Prime;
use fm_mono::{Mono, Order};
use fm_poly::{Poly, Ring, Term};
use sqlite_items::Items;
use std::alloc::{AllocError, Global};

pub const RING: Ring = Ring {
    prime: Prime::Two,
    vars: 4,
    order: Order::Grevlex,
};

/// The monomial with these exponents of x, y, z, w.
pub fn monomial(alloc: Global, exponents: &[u32]) -> Result<Poly, AllocError>
    requires four { length exponents.now ≡ 4 }
    requires within { is_bounded exponents.now ≡ true }
    ensures { IfOk result (λ f. f ≡ monomial_value exponents.now) }
{
    let mut terms = Vec::new(alloc);
    terms.push(Term {
        mono: Mono::of(exponents),
        coeff: RING.prime.element(1),
    })?;
    Ok(Poly::from_canonical(RING, terms))
}

// Four draws; where all of them are 0, the exponent of x is 1.
#[tactic(auto, unfolding(crate::specs::Samples::exponents))]
fn draw_exponents(draws: &mut Draws) -> [u32; 4]
    ensures number { draws.new.number ≡ next (next (next (next draws.old.number))) }
    ensures exponents { result ≡ exponents draws.old.number }
    ensures within { is_bounded result ≡ true }
{
    let x = draws.draw();
    let y = draws.draw();
    let z = draws.draw();
    let w = draws.draw();
    let some = if x + (y + (z + w)) == 0 { 1 } else { x };
    [some, y, z, w]
}

/// Draws this many monomials.
pub fn draw_monomials(
    alloc: Global,
    draws: &mut Draws,
    count: u32,
) -> Result<Items<Poly>, AllocError>
    ensures number { OnOk result (draws.new.number ≡ past count draws.old.number) }
    ensures monomials { IfOk result (λ fs. fs ≡ monomials count draws.old.number) }
{
    let mut generators = Items::new(alloc);
    for _ in 0..count {
        let exponents = draw_exponents(draws);
        generators.push(monomial(alloc, &exponents)?)?;
    }
    Ok(generators)
}
