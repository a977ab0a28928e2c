// Multiples of unit matrices.
ghost use Rattle.std.specs.Prelude.{IfOk, cond, eqb, length, ◌≡◌};
ghost use Rattle.fm_algebra.specs.Matrix.{listed};
ghost use Rattle.fm_algebra.specs.Polynomials.{polynomial_zero};
ghost use Rattle.fm_algebra.specs.PolynomialMatrices.{matrix_scalar};
ghost use Rattle.fm_mat.specs.Matrices.{AreColumns, column_meaning, columns_meaning, matrix_meaning};
ghost use Rattle.fm_poly.specs.Polys.{meaning};
ghost use Rattle.fm_vec.specs.Components.{AreOver};

use fm_mat::{Column, Matrix};
use fm_poly::Poly;
use std::alloc::{AllocError, Global};

/// f times the unit matrix with n rows.
pub fn scalar(alloc: Global, f: &Poly, n: u32) -> Result<Matrix, AllocError>
    ensures ring { IfOk result (λ m. m.ring ≡ f.now.ring) }
    ensures rows { IfOk result (λ m. m.rows ≡ n) }
    ensures count { IfOk result (λ m. length m.columns ≡ n) }
    ensures value { let r = f.now.ring in IfOk result (λ m.
        matrix_meaning r m ≡ matrix_scalar r.prime r.vars (meaning r f.now.terms) n) }
{
    let columns = scalar_columns(alloc, f, n)?;
    Ok(Matrix::new(f.ring(), n, columns))
}

fn scalar_columns(alloc: Global, f: &Poly, n: u32) -> Result<Vec<Column>, AllocError>
    ensures columns { IfOk result (λ out. AreColumns f.now.ring n out.items) }
    ensures count { IfOk result (λ out. length out.items ≡ n) }
    ensures value { let r = f.now.ring in IfOk result (λ out. columns_meaning r out.items
        ≡ listed n (λ j. listed n (λ i. cond (eqb i j) (meaning r f.now.terms) (polynomial_zero r.prime r.vars)))) }
{
    let mut out = Vec::with_capacity(alloc, n as usize)?;
    for j in 0..n {
        out.push(Column::new(scalar_column(alloc, f, n, j)?))?;
    }
    Ok(out)
}

// f in place j, counted from 0, and zeros.
fn scalar_column(alloc: Global, f: &Poly, n: u32, j: u32) -> Result<Vec<Poly>, AllocError>
    ensures over { IfOk result (λ out. AreOver f.now.ring out.items) }
    ensures count { IfOk result (λ out. length out.items ≡ n) }
    ensures value { let r = f.now.ring in IfOk result (λ out. column_meaning r out.items
        ≡ listed n (λ i. cond (eqb i j) (meaning r f.now.terms) (polynomial_zero r.prime r.vars))) }
{
    let mut out = Vec::with_capacity(alloc, n as usize)?;
    for i in 0..n {
        out.push(entry_where(alloc, f, i, j)?)?;
    }
    Ok(out)
}

/// f where the numbers are equal, else 0.
pub(crate) fn entry_where(alloc: Global, f: &Poly, i: u32, j: u32) -> Result<Poly, AllocError>
    ensures over { IfOk result (λ h. h.ring ≡ f.now.ring) }
    ensures value { let r = f.now.ring in IfOk result (λ h. meaning r h.terms
        ≡ cond (eqb i j) (meaning r f.now.terms) (polynomial_zero r.prime r.vars)) }
{
    if i != j {
        return Ok(Poly::zero(alloc, f.ring()));
    }
    let copy = f.copy(alloc)?;
    Ok(copy)
}
