// Matrices.
ghost use Rattle.std.specs.Prelude.{
  IfOk,
  IsErrOf,
  OnOk,
  Some,
  false,
  length,
  map,
  slice_get,
  true,
  ◌+◌,
  ◌-◌,
  ◌<◌,
  ◌^◌,
  ◌≡◌,
  ◌≤◌,
};
ghost use Rattle.std.specs.List.{list_all};
ghost use Rattle.fm_algebra.specs.PolynomialMatrices.{
  matrix_above,
  matrix_beside,
  matrix_picked,
  matrix_product,
  matrix_transpose,
  matrix_twist,
  matrix_unit,
};
ghost use Rattle.fm_mat.specs.Bounds.{entries_fit, products_fit};
ghost use Rattle.fm_mat.specs.Columns.{AreNumbers};
ghost use Rattle.fm_mat.specs.Matrices.{AreColumns, columns_meaning, matrix_meaning};
ghost use Rattle.fm_vec.specs.Components.{AreOver};

use crate::column::Column;
use crate::copying::push_columns;
use crate::flipping::flipped;
use crate::multiplying::products;
use crate::picking::picked;
use crate::stacking::stacked;
use crate::twisting::twisted;
use crate::units::unit_vectors;
use fm_poly::{Poly, PolyError, Ring};
use std::alloc::{AllocError, Global};
use std::marker::Model;

/// A matrix of polynomials: its ring, its number of rows, and its columns, fewer than 2^32.
#[derive(Drop)]
pub struct Matrix {
    ring: Ring,
    rows: u32,
    columns: Vec<Column>,
}

impl Model for Matrix {
    ghost use Rattle.std.specs.Prelude.{length, ◌<◌, ◌^◌};
    ghost use Rattle.fm_mat.specs.Matrices.{AreColumns, MatrixValue};

    ghost Value = { MatrixValue };

    ghost view = { λ m. record { ring = m.ring; rows = m.rows; columns = m.columns.items } };

    ghost invariant = { λ m. AreColumns m.ring m.rows m.columns.items × (length m.columns.items < 2 ^ 32) };
}

impl Matrix {
    /// The matrix with these columns, which it takes over. It takes no memory.
    pub fn new(ring: Ring, rows: u32, columns: Vec<Column>) -> Matrix
        requires shape { AreColumns ring rows columns.items }
        requires few { length columns.items < 2 ^ 32 }
        ensures { result ≡ record { ring = ring; rows = rows; columns = columns.items } }
    {
        Matrix {
            ring,
            rows,
            columns,
        }
    }

    pub fn unit(alloc: Global, ring: Ring, n: u32) -> Result<Matrix, AllocError>
        requires some { 1 ≤ ring.vars }
        requires few { ring.vars ≤ 8 }
        ensures ring { IfOk result (λ m. m.ring ≡ ring) }
        ensures rows { IfOk result (λ m. m.rows ≡ n) }
        ensures count { IfOk result (λ m. length m.columns ≡ n) }
        ensures value { IfOk result (λ m. matrix_meaning ring m ≡ matrix_unit ring.prime ring.vars n) }
    {
        let columns = unit_vectors(alloc, ring, n)?;
        Ok(Matrix {
            ring,
            rows: n,
            columns,
        })
    }

    pub fn ring(&self) -> Ring
        ensures { result ≡ self.now.ring }
    {
        self.ring
    }

    pub fn rows(&self) -> u32
        ensures { result ≡ self.now.rows }
    {
        self.rows
    }

    pub fn cols(&self) -> u32
        ensures { result ≡ length self.now.columns }
    {
        self.columns.len() as u32
    }

    /// The entries of column j, counted from 1.
    pub fn column(&self, j: u32) -> &[Poly]
        requires low { 1 ≤ j }
        requires high { j ≤ length self.now.columns }
        ensures { slice_get self.entry.now.columns (j - 1) ≡ Some result.now }
    {
        self.columns[j as usize - 1].entries()
    }

    pub fn columns(&self) -> &[Column]
        ensures same { result.now ≡ self.now.columns }
        ensures shape { AreColumns self.now.ring self.now.rows self.now.columns }
        ensures few { length self.now.columns < 2 ^ 32 }
    {
        &self.columns
    }

    /// Each product of entries that the rule row by column names counts for the bound, also one that the sum would cancel.
    pub fn times(&self, alloc: Global, b: &Matrix) -> Result<Matrix, PolyError>
        requires ring { b.now.ring ≡ self.now.ring }
        requires inner { b.now.rows ≡ length self.now.columns }
        ensures ring { IfOk result (λ m. m.ring ≡ self.now.ring) }
        ensures rows { IfOk result (λ m. m.rows ≡ self.now.rows) }
        ensures count { IfOk result (λ m. length m.columns ≡ length b.now.columns) }
        ensures value { (r : Ring) → self.now.ring ≡ r → IfOk result (λ m.
            matrix_meaning r m ≡ matrix_product r.prime r.vars (matrix_meaning r self.now) (matrix_meaning r b.now)) }
        ensures fits { (r : Ring) → self.now.ring ≡ r → OnOk result
            (list_all (products_fit r.prime r.vars (columns_meaning r self.now.columns)) (columns_meaning r b.now.columns) ≡ true) }
        ensures exponent { (r : Ring) → self.now.ring ≡ r → IsErrOf result PolyError.Exponent
            → list_all (products_fit r.prime r.vars (columns_meaning r self.now.columns)) (columns_meaning r b.now.columns) ≡ false }
    {
        let columns = products(alloc, self.ring, self.rows, &self.columns, &b.columns)?;
        Ok(Matrix {
            ring: self.ring,
            rows: self.rows,
            columns,
        })
    }

    pub fn flip(&self, alloc: Global) -> Result<Matrix, AllocError>
        ensures ring { IfOk result (λ m. m.ring ≡ self.now.ring) }
        ensures rows { IfOk result (λ m. m.rows ≡ length self.now.columns) }
        ensures count { IfOk result (λ m. length m.columns ≡ self.now.rows) }
        ensures value { (r : Ring) → self.now.ring ≡ r → IfOk result (λ m.
            matrix_meaning r m ≡ matrix_transpose r.prime r.vars (matrix_meaning r self.now)) }
    {
        let columns = flipped(alloc, self.ring, self.rows, &self.columns)?;
        Ok(Matrix {
            ring: self.ring,
            rows: self.cols(),
            columns,
        })
    }

    /// The twist by q = p^e.
    pub fn twist(&self, alloc: Global, e: u8) -> Result<Matrix, PolyError>
        ensures ring { IfOk result (λ m. m.ring ≡ self.now.ring) }
        ensures rows { IfOk result (λ m. m.rows ≡ self.now.rows) }
        ensures count { IfOk result (λ m. length m.columns ≡ length self.now.columns) }
        ensures value { (r : Ring) → self.now.ring ≡ r → IfOk result (λ m.
            matrix_meaning r m ≡ matrix_twist r.prime r.vars e (matrix_meaning r self.now)) }
        ensures fits { (r : Ring) → self.now.ring ≡ r → OnOk result
            (entries_fit r.prime r.vars e (matrix_meaning r self.now) ≡ true) }
        ensures exponent { (r : Ring) → self.now.ring ≡ r → IsErrOf result PolyError.Exponent
            → entries_fit r.prime r.vars e (matrix_meaning r self.now) ≡ false }
    {
        let columns = twisted(alloc, self.ring, self.rows, e, &self.columns)?;
        Ok(Matrix {
            ring: self.ring,
            rows: self.rows,
            columns,
        })
    }

    /// This matrix with b to its right.
    pub fn beside(&self, alloc: Global, b: &Matrix) -> Result<Matrix, AllocError>
        requires ring { b.now.ring ≡ self.now.ring }
        requires rows { b.now.rows ≡ self.now.rows }
        requires few { length self.now.columns + length b.now.columns < 2 ^ 32 }
        ensures ring { IfOk result (λ m. m.ring ≡ self.now.ring) }
        ensures rows { IfOk result (λ m. m.rows ≡ self.now.rows) }
        ensures count { IfOk result (λ m. length m.columns ≡ length self.now.columns + length b.now.columns) }
        ensures value { (r : Ring) → self.now.ring ≡ r → IfOk result (λ m.
            matrix_meaning r m ≡ matrix_beside r.prime r.vars (matrix_meaning r self.now) (matrix_meaning r b.now)) }
    {
        let mut columns = Vec::with_capacity(alloc, self.columns.len() + b.columns.len())?;
        push_columns(alloc, &self.columns, &mut columns)?;
        push_columns(alloc, &b.columns, &mut columns)?;
        Ok(Matrix {
            ring: self.ring,
            rows: self.rows,
            columns,
        })
    }

    /// This matrix with b below it.
    pub fn stack(&self, alloc: Global, b: &Matrix) -> Result<Matrix, AllocError>
        requires ring { b.now.ring ≡ self.now.ring }
        requires count { length b.now.columns ≡ length self.now.columns }
        requires few { self.now.rows + b.now.rows < 2 ^ 32 }
        ensures ring { IfOk result (λ m. m.ring ≡ self.now.ring) }
        ensures rows { IfOk result (λ m. m.rows ≡ self.now.rows + b.now.rows) }
        ensures count { IfOk result (λ m. length m.columns ≡ length self.now.columns) }
        ensures value { (r : Ring) → self.now.ring ≡ r → IfOk result (λ m.
            matrix_meaning r m ≡ matrix_above r.prime r.vars (matrix_meaning r self.now) (matrix_meaning r b.now)) }
    {
        let columns = stacked(alloc, &self.columns, &b.columns)?;
        Ok(Matrix {
            ring: self.ring,
            rows: self.rows + b.rows,
            columns,
        })
    }

    /// The columns with these numbers, counted from 1, in this order.
    pub fn pick(&self, alloc: Global, columns: &[u32]) -> Result<Matrix, AllocError>
        requires few { length columns.now < 2 ^ 32 }
        requires numbers { AreNumbers (length self.now.columns) columns.now }
        ensures ring { IfOk result (λ m. m.ring ≡ self.now.ring) }
        ensures rows { IfOk result (λ m. m.rows ≡ self.now.rows) }
        ensures count { IfOk result (λ m. length m.columns ≡ length columns.now) }
        ensures value { (r : Ring) → self.now.ring ≡ r → IfOk result (λ m.
            matrix_meaning r m ≡ matrix_picked r.prime r.vars (matrix_meaning r self.now) (map (λ j. j - 1) columns.now)) }
    {
        let columns = picked(alloc, &self.columns, columns)?;
        Ok(Matrix {
            ring: self.ring,
            rows: self.rows,
            columns,
        })
    }

    pub fn copy(&self, alloc: Global) -> Result<Matrix, AllocError>
        ensures { IfOk result (λ m. m ≡ self.now) }
    {
        let mut columns = Vec::with_capacity(alloc, self.columns.len())?;
        push_columns(alloc, &self.columns, &mut columns)?;
        Ok(Matrix {
            ring: self.ring,
            rows: self.rows,
            columns,
        })
    }
}
