// Unit vectors.
ghost use Rattle.std.specs.Prelude.{IfOk, cond, eqb, length, ◌≡◌, ◌≤◌};
ghost use Rattle.fm_algebra.specs.Matrix.{listed};
ghost use Rattle.fm_algebra.specs.Polynomials.{polynomial_one, polynomial_zero};
ghost use Rattle.fm_groebner.specs.Graphs as graphs;
ghost use Rattle.fm_mat.specs.Matrices.{AreColumns, column_meaning, columns_meaning};
ghost use Rattle.fm_poly.specs.Polys.{meaning};
ghost use Rattle.fm_vec.specs.Components.{AreOver};

use crate::column::Column;
use fm_mono::Mono;
use fm_poly::{Poly, Ring, Term};
use std::alloc::{AllocError, Global};

/// The n unit vectors of length n.
pub(crate) fn unit_vectors(alloc: Global, ring: Ring, n: u32) -> Result<Vec<Column>, AllocError>
    requires some { 1 ≤ ring.vars }
    requires few { ring.vars ≤ 8 }
    ensures columns { IfOk result (λ out. AreColumns ring n out.items) }
    ensures count { IfOk result (λ out. length out.items ≡ n) }
    ensures value { IfOk result (λ out. columns_meaning ring out.items
        ≡ listed n (graphs.unit_vector ring.prime ring.vars n)) }
{
    let mut out = Vec::with_capacity(alloc, n as usize)?;
    for j in 0..n {
        out.push(Column::new(unit_vector(alloc, ring, n, j)?))?;
    }
    Ok(out)
}

/// Unit vector j, counted from 0.
fn unit_vector(alloc: Global, ring: Ring, n: u32, j: u32) -> Result<Vec<Poly>, AllocError>
    requires some { 1 ≤ ring.vars }
    requires few { ring.vars ≤ 8 }
    ensures over { IfOk result (λ out. AreOver ring out.items) }
    ensures count { IfOk result (λ out. length out.items ≡ n) }
    ensures value { IfOk result (λ out. column_meaning ring out.items ≡ graphs.unit_vector ring.prime ring.vars n j) }
{
    let mut out = Vec::with_capacity(alloc, n as usize)?;
    for i in 0..n {
        out.push(unit_entry(alloc, ring, i, j)?)?;
    }
    Ok(out)
}

/// 1 where the numbers are equal, else 0.
fn unit_entry(alloc: Global, ring: Ring, i: u32, j: u32) -> Result<Poly, AllocError>
    requires some { 1 ≤ ring.vars }
    requires few { ring.vars ≤ 8 }
    ensures over { IfOk result (λ h. h.ring ≡ ring) }
    ensures value { IfOk result (λ h. meaning ring h.terms
        ≡ cond (eqb i j) (polynomial_one ring.prime ring.vars) (polynomial_zero ring.prime ring.vars)) }
{
    if i != j {
        return Ok(Poly::zero(alloc, ring));
    }
    let one = one(alloc, ring)?;
    Ok(one)
}

fn one(alloc: Global, ring: Ring) -> Result<Poly, AllocError>
    requires some { 1 ≤ ring.vars }
    requires few { ring.vars ≤ 8 }
    ensures over { IfOk result (λ h. h.ring ≡ ring) }
    ensures value { IfOk result (λ h. meaning ring h.terms ≡ polynomial_one ring.prime ring.vars) }
{
    let term = Term {
        mono: Mono::one(ring.vars),
        coeff: ring.prime.element(1),
    };
    let one = Poly::from_terms(alloc, ring, &[term])?;
    Ok(one)
}
