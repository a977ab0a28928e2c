// Products, column by column.
ghost use Rattle.std.specs.Prelude.{IfOk, IsErrOf, OnOk, false, length, map, true, ◌≡◌};
ghost use Rattle.std.specs.List.{list_all};
ghost use Rattle.fm_algebra.specs.Polynomials.{polynomial_product, polynomial_sum};
ghost use Rattle.fm_algebra.specs.PolynomialMatrices.{vector_product};
ghost use Rattle.fm_groebner.specs.Graphs.{zero_vector};
ghost use Rattle.fm_mat.specs.Acting.{entries_fit_with, with_product};
ghost use Rattle.fm_mat.specs.Matrices.{AreColumns, column_meaning, columns_meaning};
ghost use Rattle.fm_poly.specs.Polys.{meaning};
ghost use Rattle.fm_mat.specs.Bounds.{product_fits, products_fit};
ghost use Rattle.fm_vec.specs.Components.{AreOver};

use crate::column::Column;
use fm_poly::{Poly, PolyError, Ring};
use std::alloc::{AllocError, Global};

/// Each column of b is sent by a.
pub(crate) fn products(
    alloc: Global,
    ring: Ring,
    rows: u32,
    a: &[Column],
    b: &[Column],
) -> Result<Vec<Column>, PolyError>
    requires a_columns { AreColumns ring rows a.now }
    requires b_columns { AreColumns ring (length a.now) b.now }
    ensures columns { IfOk result (λ out. AreColumns ring rows out.items) }
    ensures value { IfOk result (λ out. columns_meaning ring out.items
        ≡ map (vector_product ring.prime ring.vars (record { rows = rows; columns = columns_meaning ring a.now }))
        (columns_meaning ring b.now)) }
    ensures fits { OnOk result
        (list_all (products_fit ring.prime ring.vars (columns_meaning ring a.now)) (columns_meaning ring b.now) ≡ true) }
    ensures exponent { IsErrOf result PolyError.Exponent
        → list_all (products_fit ring.prime ring.vars (columns_meaning ring a.now)) (columns_meaning ring b.now) ≡ false }
{
    let mut out = Vec::with_capacity(alloc, b.len())?;
    let mut b = b;
    'columns: loop {
        let Some((w, later)) = b.split_first() else {
            return Ok(out);
        };
        let entries = act(alloc, ring, rows, a, w.entries())?;
        out.push(Column::new(entries))?;
        b = later;
    }
}

/// a * w.
fn act(
    alloc: Global,
    ring: Ring,
    rows: u32,
    a: &[Column],
    w: &[Poly],
) -> Result<Vec<Poly>, PolyError>
    requires columns { AreColumns ring rows a.now }
    requires over { AreOver ring w.now }
    requires inner { length w.now ≡ length a.now }
    ensures over { IfOk result (λ out. AreOver ring out.items) }
    ensures rows { IfOk result (λ out. length out.items ≡ rows) }
    ensures value { IfOk result (λ out. column_meaning ring out.items
        ≡ vector_product ring.prime ring.vars (record { rows = rows; columns = columns_meaning ring a.now })
        (column_meaning ring w.now)) }
    ensures fits { OnOk result (products_fit ring.prime ring.vars (columns_meaning ring a.now) (column_meaning ring w.now) ≡ true) }
    ensures exponent { IsErrOf result PolyError.Exponent
        → products_fit ring.prime ring.vars (columns_meaning ring a.now) (column_meaning ring w.now) ≡ false }
{
    let mut sum = zeros(alloc, ring, rows)?;
    let mut a = a;
    let mut w = w;
    'columns: loop {
        let Some((c, columns)) = a.split_first() else {
            return Ok(sum);
        };
        let Some((g, later)) = w.split_first() else {
            return Ok(sum);
        };
        sum = plus_product(alloc, ring, &sum, c.entries(), g)?;
        a = columns;
        w = later;
    }
}

fn zeros(alloc: Global, ring: Ring, rows: u32) -> Result<Vec<Poly>, AllocError>
    ensures over { IfOk result (λ out. AreOver ring out.items) }
    ensures rows { IfOk result (λ out. length out.items ≡ rows) }
    ensures value { IfOk result (λ out. column_meaning ring out.items ≡ zero_vector ring.prime ring.vars rows) }
{
    let mut out = Vec::with_capacity(alloc, rows as usize)?;
    for _k in 0..rows {
        out.push(Poly::zero(alloc, ring))?;
    }
    Ok(out)
}

/// s + c * g, entry by entry.
fn plus_product(
    alloc: Global,
    ring: Ring,
    s: &[Poly],
    c: &[Poly],
    g: &Poly,
) -> Result<Vec<Poly>, PolyError>
    requires s_over { AreOver ring s.now }
    requires c_over { AreOver ring c.now }
    requires g_over { g.now.ring ≡ ring }
    requires rows { length c.now ≡ length s.now }
    ensures over { IfOk result (λ out. AreOver ring out.items) }
    ensures rows { IfOk result (λ out. length out.items ≡ length s.now) }
    ensures value { IfOk result (λ out. column_meaning ring out.items
        ≡ with_product ring.prime ring.vars (column_meaning ring s.now) (column_meaning ring c.now) (meaning ring g.now.terms)) }
    ensures fits { OnOk result (entries_fit_with ring.prime ring.vars (column_meaning ring c.now) (meaning ring g.now.terms) ≡ true) }
    ensures exponent { IsErrOf result PolyError.Exponent
        → entries_fit_with ring.prime ring.vars (column_meaning ring c.now) (meaning ring g.now.terms) ≡ false }
{
    let mut out = Vec::with_capacity(alloc, s.len())?;
    let mut s = s;
    let mut c = c;
    'entries: loop {
        let Some((x, sums)) = s.split_first() else {
            return Ok(out);
        };
        let Some((f, entries)) = c.split_first() else {
            return Ok(out);
        };
        out.push(plus_entry(alloc, ring, x, f, g)?)?;
        s = sums;
        c = entries;
    }
}

/// x + f * g.
fn plus_entry(alloc: Global, ring: Ring, x: &Poly, f: &Poly, g: &Poly) -> Result<Poly, PolyError>
    requires x_over { x.now.ring ≡ ring }
    requires f_over { f.now.ring ≡ ring }
    requires g_over { g.now.ring ≡ ring }
    ensures over { IfOk result (λ h. h.ring ≡ ring) }
    ensures value { IfOk result (λ h. meaning ring h.terms
        ≡ polynomial_sum ring.prime ring.vars (meaning ring x.now.terms)
        (polynomial_product ring.prime ring.vars (meaning ring f.now.terms) (meaning ring g.now.terms))) }
    ensures fits { OnOk result (product_fits ring.prime ring.vars (meaning ring f.now.terms) (meaning ring g.now.terms) ≡ true) }
    ensures exponent { IsErrOf result PolyError.Exponent
        → product_fits ring.prime ring.vars (meaning ring f.now.terms) (meaning ring g.now.terms) ≡ false }
{
    let product = f.mul(alloc, g)?;
    let sum = x.add(alloc, &product)?;
    Ok(sum)
}
