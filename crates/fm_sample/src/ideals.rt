// Drawn ideals.
ghost use Rattle.std.specs.Prelude.{◌≡◌, IfOk, OnOk, suc};
ghost use Rattle.fm_sample.specs.Samples.{generators, ideal_name, ideals, past_ideal};

use crate::draws::Draws;
use crate::monomials::draw_monomials;
use fm_poly::Poly;
use fm_problem::{Ideal, Name};
use itoa::Buffer;
use sqlite_items::Items;
use std::alloc::{AllocError, Global};

/// How many ideals are drawn.
pub const IDEALS: u32 = 20;

// The name of an ideal, which count from 1.
#[tactic(auto, unfolding(crate::specs::Samples::ideal_name))]
fn name(alloc: Global, number: u32) -> Result<Name, AllocError>
    ensures { IfOk result (λ n. n ≡ ideal_name number) }
{
    let mut text = String::from_str(alloc, "I")?;
    let mut digits = Buffer::new();
    text.push_str(digits.format(number))?;
    Ok(Name::from_string(text))
}

// Two to four monomials: a draw tells how many, and they are drawn then.
#[tactic(auto, unfolding(crate::specs::Samples::generators, crate::specs::Samples::past_ideal))]
fn draw_generators(alloc: Global, draws: &mut Draws) -> Result<Items<Poly>, AllocError>
    ensures number { OnOk result (draws.new.number ≡ past_ideal draws.old.number) }
    ensures generators { IfOk result (λ fs. fs ≡ generators draws.old.number) }
{
    let count = 2 + draws.draw();
    draw_monomials(alloc, draws, count)
}

/// Draws the ideals from a number.
pub fn draw_ideals(alloc: Global, number: u32) -> Result<Items<Ideal>, AllocError>
    ensures { IfOk result (λ is. is ≡ ideals IDEALS number) }
{
    let mut draws = Draws {
        number: u64::from(number),
    };
    let mut ideals = Items::new(alloc);
    for k in 0..IDEALS {
        let generators = draw_generators(alloc, &mut draws)?;
        ideals.push(Ideal {
            name: name(alloc, k + 1)?,
            generators,
        })?;
    }
    Ok(ideals)
}
