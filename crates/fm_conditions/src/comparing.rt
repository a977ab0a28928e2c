// Values of matrices, compared.
ghost use Rattle.std.specs.Prelude.{IfOk, length, nat_eq, ◌<◌, ◌^◌, ◌≡◌};
ghost use Rattle.std.specs.List.{list_all};
ghost use lib.Pointwise.{pointwise};
ghost use Rattle.fm_graphs.specs.Trims.{is_zero};
ghost use Rattle.fm_graphs.specs.Listing.{terms_of};
ghost use Rattle.fm_mat.specs.Matrices.{AreColumns, column_meaning, columns_meaning, matrix_meaning};
ghost use Rattle.fm_parts.specs.Values as values;
ghost use Rattle.fm_parts.specs.Values.{same_term, same_vector};
ghost use Rattle.fm_poly.specs.declared.ring.Ring.{Ring as RingValue};
ghost use Rattle.fm_vec.specs.Components.{AreOver};

use fm_mat::{Column, Matrix};
use fm_mono::Mono;
use fm_poly::{Poly, Ring};
use fm_term::VTerm;
use fm_vec::Vector;
use std::alloc::{AllocError, Global};

/// Whether the matrices are equal. It lists the terms of each column.
pub(crate) fn same_matrix(alloc: Global, a: &Matrix, b: &Matrix) -> Result<bool, AllocError>
    requires { b.now.ring ≡ a.now.ring }
    ensures { (r : RingValue) → a.now.ring ≡ r → IfOk result (λ same. same ≡ values.same_matrix r (matrix_meaning r a.now) (matrix_meaning r b.now)) }
{
    if a.rows() != b.rows() {
        return Ok(false);
    }
    same_columns(alloc, a.ring(), a.rows(), a.columns(), b.columns())
}

fn same_columns(
    alloc: Global,
    ring: Ring,
    rows: u32,
    cs: &[Column],
    ds: &[Column],
) -> Result<bool, AllocError>
    requires first { AreColumns ring rows cs.now }
    requires second { AreColumns ring rows ds.now }
    ensures { IfOk result (λ same. same ≡ pointwise (same_vector ring) (columns_meaning ring cs.now) (columns_meaning ring ds.now)) }
{
    let mut cs = cs;
    let mut ds = ds;
    'columns: loop {
        let Some((c, cs_later)) = cs.split_first() else {
            return Ok(ds.is_empty());
        };
        let Some((d, ds_later)) = ds.split_first() else {
            return Ok(false);
        };
        if !same_column(alloc, ring, c.entries(), d.entries())? {
            return Ok(false);
        }
        cs = cs_later;
        ds = ds_later;
    }
}

/// Whether the columns are equal.
pub(crate) fn same_column(
    alloc: Global,
    ring: Ring,
    c: &[Poly],
    d: &[Poly],
) -> Result<bool, AllocError>
    requires c_few { length c.now < 2 ^ 32 }
    requires c_over { AreOver ring c.now }
    requires d_few { length d.now < 2 ^ 32 }
    requires d_over { AreOver ring d.now }
    ensures { IfOk result (λ same. same ≡ same_vector ring (column_meaning ring c.now) (column_meaning ring d.now)) }
{
    if c.len() != d.len() {
        return Ok(false);
    }
    let v = vector_of(alloc, ring, c)?;
    let w = vector_of(alloc, ring, d)?;
    Ok(same_terms(v.terms(), w.terms()))
}

/// The vector with these entries.
pub(crate) fn vector_of(alloc: Global, ring: Ring, column: &[Poly]) -> Result<Vector, AllocError>
    requires few { length column.now < 2 ^ 32 }
    requires over { AreOver ring column.now }
    ensures ring { IfOk result (λ v. v.ring ≡ ring) }
    ensures rows { IfOk result (λ v. v.rows ≡ length column.now) }
    ensures terms { IfOk result (λ v. v.terms ≡ terms_of ring (column_meaning ring column.now)) }
{
    let v = Vector::from_column(alloc, ring, column)?;
    let _head = v.head();
    Ok(v)
}

fn same_terms(ts: &[VTerm], us: &[VTerm]) -> bool
    ensures { result ≡ pointwise same_term ts.now us.now }
{
    let mut ts = ts;
    let mut us = us;
    'terms: loop {
        let Some((t, ts_later)) = ts.split_first() else {
            return us.is_empty();
        };
        let Some((u, us_later)) = us.split_first() else {
            return false;
        };
        if !is_same_term(t, u) {
            return false;
        }
        ts = ts_later;
        us = us_later;
    }
}

fn is_same_term(t: &VTerm, u: &VTerm) -> bool
    ensures { result ≡ same_term t.now u.now }
{
    t.component == u.component && same_monomial(&t.mono, &u.mono) && t.coeff == u.coeff
}

fn same_monomial(a: &Mono, b: &Mono) -> bool
    ensures { result ≡ pointwise nat_eq a.now b.now }
{
    a == b
}

/// Whether all entries are zero. It lists the terms of each column.
pub(crate) fn is_zero_matrix(alloc: Global, a: &Matrix) -> Result<bool, AllocError>
    ensures { (r : RingValue) → a.now.ring ≡ r → IfOk result (λ zero. zero ≡ values.is_zero_matrix r (matrix_meaning r a.now)) }
{
    are_zero_columns(alloc, a.ring(), a.rows(), a.columns())
}

fn are_zero_columns(
    alloc: Global,
    ring: Ring,
    rows: u32,
    columns: &[Column],
) -> Result<bool, AllocError>
    requires { AreColumns ring rows columns.now }
    ensures { IfOk result (λ zero. zero ≡ list_all (λ v. is_zero (terms_of ring v)) (columns_meaning ring columns.now)) }
{
    let mut columns = columns;
    'columns: loop {
        let Some((c, later)) = columns.split_first() else {
            return Ok(true);
        };
        if vector_of(alloc, ring, c.entries())?.head().is_some() {
            return Ok(false);
        }
        columns = later;
    }
}
