// The lines of a resolution.
ghost use Rattle.std.specs.Prelude.{OnOk, length, map, ◌+◌, ◌<◌, ◌^◌, ◌≡◌};
ghost use Rattle.fm_certificates.specs.Certificates.{differential_claims, exact_claims, resolution_claims};
ghost use Rattle.fm_certify.specs.Claims.{HasClaims};
ghost use Rattle.fm_lift.specs.Lifts.{AreMatricesOver};
ghost use Rattle.fm_mat.specs.Matrices.{matrix_meaning};
ghost use Rattle.fm_poly.specs.declared.ring.Ring.{Ring as RingValue};
ghost use Rattle.fm_resolve.specs.Resolutions.{AreExactFrom, generators_from, resolution_value};
ghost use Rattle.fm_syz.specs.GeneratorValues.{GeneratorsValue};

use crate::appending::push_matrix;
use crate::operands::matrix;
use crate::reading::tell_matrix;
use fm_resolve::Resolution;
use fm_syz::{Generators, Graph};
use fm_writer::{Claim, Named, Shown, Whole};
use std::alloc::AllocError;

/// `d 1`, `d 2`, .., and then `exact 1`, `exact 2`, ..
pub(crate) fn push_resolution<'a>(
    resolution: &'a Resolution,
    claims: &mut Vec<Claim<'a>>,
) -> Result<(), AllocError>
    ensures { let r = resolution.now.first.matrix.ring in OnOk result (HasClaims r.vars claims.old.items
        (resolution_claims r (resolution_value r resolution.now)) claims.new.items) }
{
    let first = resolution.first();
    let next = resolution.next();
    push_matrix(Named::D(1), first.matrix(), claims)?;
    push_differentials(2, next, claims)?;
    push_exacts(1, first, next, claims)
}

// `d j`, `d j+1`, ..
fn push_differentials<'a>(
    j: u64,
    next: &'a [Generators],
    claims: &mut Vec<Claim<'a>>,
) -> Result<(), AllocError>
    requires room { j + length next.now < 2 ^ 64 }
    ensures { (r : RingValue) → AreMatricesOver r (map (λ (x : GeneratorsValue). x.graph.matrix) next.now)
        → OnOk result (HasClaims r.vars claims.old.items
        (differential_claims r j (map (matrix_meaning r) (map (λ (x : GeneratorsValue). x.graph.matrix) next.now))) claims.new.items) }
{
    let mut number = j;
    let mut left = next;
    'next: loop {
        let Some((x, later)) = left.split_first() else {
            return Ok(());
        };
        push_matrix(Named::D(number), x.found(), claims)?;
        number += 1;
        left = later;
    }
}

// `exact j`, `exact j+1`, .., where the first is on the kernel of the matrix of this graph.
fn push_exacts<'a>(
    j: u64,
    first: &'a Graph,
    next: &'a [Generators],
    claims: &mut Vec<Claim<'a>>,
) -> Result<(), AllocError>
    requires room { j + length next.now < 2 ^ 64 }
    ensures { AreExactFrom first.now next.now → let r = first.now.matrix.ring in OnOk result (HasClaims r.vars claims.old.items
        (exact_claims r j (matrix_meaning r first.now.matrix) (generators_from r first.now next.now)) claims.new.items) }
{
    let mut graph = first;
    let mut number = j;
    let mut left = next;
    'next: loop {
        let Some((x, later)) = left.split_first() else {
            return Ok(());
        };
        tell_matrix(x.x());
        tell_matrix(x.w());
        claims.push(Claim::Exact {
            number,
            shown: Shown {
                whole: Whole::One(matrix(graph.matrix())),
                log: graph.log(),
                x: x.x(),
                w: x.w(),
            },
        })?;
        graph = x.graph();
        number += 1;
        left = later;
    }
}
