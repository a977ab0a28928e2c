// The standard division.
ghost use Rattle.std.specs.Prelude.{IfOk, IsErrOf, OnOk, [], length, map, ℕ, ◌++◌, ◌∷◌, ◌<◌, ◌^◌, ◌≡◌};
ghost use Rattle.fm_poly.specs.Polys.{IsCanonical};
ghost use Rattle.fm_complete.specs.declared.step.Step.{Step as StepValue};
ghost use Rattle.fm_complete.specs.Divisions.{AreMembers, division_run, division_value, quotient_terms, quotients_from};
ghost use Rattle.fm_run.specs.Runs.{Follows};

use crate::head_index::HeadIndex;
use crate::starting::reduce;
use crate::{Division, Step};
use fm_poly::{Poly, Ring, Term};
use fm_run::{Stop, Work};
use fm_vec::Vector;
use std::alloc::{AllocError, Global};

/// Divides v by the members: v is the sum of the quotients times the members plus the rest, which is zero or whose head
/// no member's head divides. It spends one unit for v and one for each head reduction, before it multiplies.
pub fn divide(
    alloc: Global,
    basis: &[Vector],
    v: &Vector,
    work: &mut Work,
) -> Result<Division, Stop>
    requires members { AreMembers v.now.ring v.now.rows basis.now }
    requires few { length basis.now < 2 ^ 32 }
    ensures follows { Follows division_value result work.old work.new (division_run basis.now v.now work.old) }
    ensures paid { IsErrOf result Stop.Memory → work.new < work.old }
{
    if !work.spend() {
        return Err(Stop::Budget);
    }
    let heads = HeadIndex::of(alloc, v.ring(), v.length(), basis)?;
    let mut tails = Vec::new(alloc);
    let reduction = reduce(alloc, basis, &heads, &mut tails, v, work)?;
    let by = numbers(alloc, &reduction.steps)?;
    let quotients = quotients(alloc, v.ring(), basis.len(), &reduction.steps)?;
    Ok(Division {
        by,
        quotients,
        rest: reduction.rest,
    })
}

pub(crate) fn numbers(alloc: Global, steps: &[Step]) -> Result<Vec<u32>, AllocError>
    ensures { IfOk result (λ out. out.items ≡ map (λ (s : StepValue). s.number) steps.now) }
{
    steps.iter().map(|s| s.number).collect(alloc)
}

/// The quotients of this many members.
fn quotients(
    alloc: Global,
    ring: Ring,
    count: usize,
    steps: &[Step],
) -> Result<Vec<Poly>, AllocError>
    requires few { count < 2 ^ 32 }
    requires canonical { (number : ℕ) → IsCanonical ring (quotient_terms number steps.now) }
    ensures { IfOk result (λ out. out.items ≡ quotients_from ring count 1 steps.now) }
{
    let mut out = Vec::with_capacity(alloc, count)?;
    for k in 0..count {
        let terms = quotient(alloc, k as u32 + 1, steps)?;
        out.push(Poly::from_canonical(ring, terms))?;
    }
    Ok(out)
}

/// The terms of the steps with this member.
fn quotient(alloc: Global, number: u32, steps: &[Step]) -> Result<Vec<Term>, AllocError>
    ensures { IfOk result (λ out. out.items ≡ quotient_terms number steps.now) }
{
    let mut out = Vec::new(alloc);
    let mut steps = steps;
    'steps: loop {
        let Some((s, later)) = steps.split_first() else {
            return Ok(out);
        };
        push_term(number, s, &mut out)?;
        steps = later;
    }
}

fn push_term(number: u32, s: &Step, out: &mut Vec<Term>) -> Result<(), AllocError>
    ensures { OnOk result (out.new.items ≡ out.old.items ++ quotient_terms number (s.now ∷ [])) }
{
    if s.number == number {
        out.push(Term {
            mono: s.mono,
            coeff: s.coeff,
        })?;
    }
    Ok(())
}
