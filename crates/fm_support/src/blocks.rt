// The unit matrix as one column, and copies of a matrix along the diagonal.
ghost use Rattle.std.specs.Prelude.{IfOk, cond, eqb, length, ◌%◌, ◌*◌, ◌/◌, ◌<◌, ◌^◌, ◌≡◌, ◌≤◌};
ghost use Rattle.fm_algebra.specs.Matrix.{component, entry, listed};
ghost use Rattle.fm_algebra.specs.Polynomials.{polynomial_one, polynomial_zero, polynomials};
ghost use Rattle.fm_limit.specs.Facts as facts;
ghost use Rattle.fm_mat.specs.Matrices.{AreColumns, column_meaning, columns_meaning, matrix_meaning};
ghost use Rattle.fm_poly.specs.Polys.{meaning};
ghost use Rattle.fm_vec.specs.Components.{AreOver};

use crate::scalars::entry_where;
use fm_mat::{Column, Matrix};
use fm_mono::Mono;
use fm_poly::{Poly, Ring, Term};
use std::alloc::{AllocError, Global};

/// The unit matrix with g rows, written as one column, column after column.
pub fn unit_column(alloc: Global, ring: Ring, g: u32) -> Result<Matrix, AllocError>
    requires some { 1 ≤ ring.vars }
    requires few { ring.vars ≤ 8 }
    requires room { g * g < 2 ^ 32 }
    ensures ring { IfOk result (λ m. m.ring ≡ ring) }
    ensures rows { IfOk result (λ m. m.rows ≡ g * g) }
    ensures count { IfOk result (λ m. length m.columns ≡ 1) }
    ensures value { IfOk result (λ m. matrix_meaning ring m ≡ facts.unit_column ring.prime ring.vars g) }
{
    let mut columns = Vec::new(alloc);
    columns.push(Column::new(unit_entries(alloc, ring, g)?))?;
    Ok(Matrix::new(ring, g * g, columns))
}

fn unit_entries(alloc: Global, ring: Ring, g: u32) -> Result<Vec<Poly>, AllocError>
    requires some { 1 ≤ ring.vars }
    requires few { ring.vars ≤ 8 }
    requires room { g * g < 2 ^ 32 }
    ensures over { IfOk result (λ out. AreOver ring out.items) }
    ensures count { IfOk result (λ out. length out.items ≡ g * g) }
    ensures value { IfOk result (λ out. column_meaning ring out.items
        ≡ listed (g * g) (λ i. cond (eqb (i / g) (i % g)) (polynomial_one ring.prime ring.vars) (polynomial_zero ring.prime ring.vars))) }
{
    let one = one(alloc, ring)?;
    let mut out = Vec::with_capacity(alloc, (g * g) as usize)?;
    for i in 0..g * g {
        out.push(entry_where(alloc, &one, i / g, i % g)?)?;
    }
    Ok(out)
}

fn one(alloc: Global, ring: Ring) -> Result<Poly, AllocError>
    requires some { 1 ≤ ring.vars }
    requires few { ring.vars ≤ 8 }
    ensures over { IfOk result (λ h. h.ring ≡ ring) }
    ensures value { IfOk result (λ h. meaning ring h.terms ≡ polynomial_one ring.prime ring.vars) }
{
    let term = Term {
        mono: Mono::one(ring.vars),
        coeff: ring.prime.element(1),
    };
    let one = Poly::from_terms(alloc, ring, &[term])?;
    Ok(one)
}

/// As many copies of k along the diagonal as k has rows.
pub fn diagonal_blocks(alloc: Global, k: &Matrix) -> Result<Matrix, AllocError>
    requires rows { k.now.rows * k.now.rows < 2 ^ 32 }
    requires columns { k.now.rows * length k.now.columns < 2 ^ 32 }
    ensures ring { IfOk result (λ m. m.ring ≡ k.now.ring) }
    ensures rows { IfOk result (λ m. m.rows ≡ k.now.rows * k.now.rows) }
    ensures count { IfOk result (λ m. length m.columns ≡ k.now.rows * length k.now.columns) }
    ensures value { let r = k.now.ring in IfOk result (λ m.
        matrix_meaning r m ≡ facts.diagonal_blocks r.prime r.vars (matrix_meaning r k.now)) }
{
    let g = k.rows();
    let columns = block_columns(alloc, k.ring(), g, k.cols(), k.columns())?;
    Ok(Matrix::new(k.ring(), g * g, columns))
}

// The columns of the copies, one copy after the other.
fn block_columns(
    alloc: Global,
    ring: Ring,
    g: u32,
    width: u32,
    columns: &[Column],
) -> Result<Vec<Column>, AllocError>
    requires shape { AreColumns ring g columns.now }
    requires width { length columns.now ≡ width }
    requires rows { g * g < 2 ^ 32 }
    requires room { g * width < 2 ^ 32 }
    ensures columns { IfOk result (λ out. AreColumns ring (g * g) out.items) }
    ensures count { IfOk result (λ out. length out.items ≡ g * width) }
    ensures value { let p = ring.prime in let n = ring.vars in IfOk result (λ out. columns_meaning ring out.items
        ≡ listed (g * width) (λ j. listed (g * g) (λ i. cond (eqb (i / g) (j / width))
        (entry (polynomials p n) (record { rows = g; columns = columns_meaning ring columns.now }) (i % g) (j % width)) (polynomial_zero p n)))) }
{
    let mut out = Vec::with_capacity(alloc, (g * width) as usize)?;
    for j in 0..g * width {
        let entries = columns[(j % width) as usize].entries();
        out.push(Column::new(block_column(alloc, ring, g, j / width, entries)?))?;
    }
    Ok(out)
}

// This block of g entries has the given ones; all other blocks are zero.
fn block_column(
    alloc: Global,
    ring: Ring,
    g: u32,
    block: u32,
    entries: &[Poly],
) -> Result<Vec<Poly>, AllocError>
    requires over { AreOver ring entries.now }
    requires long { length entries.now ≡ g }
    requires room { g * g < 2 ^ 32 }
    ensures over { IfOk result (λ out. AreOver ring out.items) }
    ensures count { IfOk result (λ out. length out.items ≡ g * g) }
    ensures value { let p = ring.prime in let n = ring.vars in IfOk result (λ out. column_meaning ring out.items
        ≡ listed (g * g) (λ i. cond (eqb (i / g) block) (component (polynomials p n) (column_meaning ring entries.now) (i % g)) (polynomial_zero p n))) }
{
    let mut out = Vec::with_capacity(alloc, (g * g) as usize)?;
    for i in 0..g * g {
        out.push(entry_where(alloc, &entries[(i % g) as usize], i / g, block)?)?;
    }
    Ok(out)
}
