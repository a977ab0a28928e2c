// Twists, entry by entry.
ghost use Rattle.std.specs.Prelude.{IfOk, IsErrOf, OnOk, false, length, map, true, ◌≡◌};
ghost use Rattle.std.specs.List.{list_all};
ghost use Rattle.fm_algebra.specs.Polynomials.{frobenius_twist};
ghost use Rattle.fm_mat.specs.Matrices.{AreColumns, column_meaning, columns_meaning};
ghost use Rattle.fm_poly.specs.Polys.{meaning};
ghost use Rattle.fm_mat.specs.Bounds.{twist_fits};
ghost use Rattle.fm_vec.specs.Components.{AreOver};

use crate::column::Column;
use fm_poly::{Poly, PolyError, Ring};
use std::alloc::Global;

pub(crate) fn twisted(
    alloc: Global,
    ring: Ring,
    rows: u32,
    e: u8,
    columns: &[Column],
) -> Result<Vec<Column>, PolyError>
    requires { AreColumns ring rows columns.now }
    ensures columns { IfOk result (λ out. AreColumns ring rows out.items) }
    ensures value { IfOk result (λ out. columns_meaning ring out.items
        ≡ map (map (frobenius_twist ring.prime ring.vars e)) (columns_meaning ring columns.now)) }
    ensures fits { OnOk result
        (list_all (λ c. list_all (twist_fits ring.prime ring.vars e) c) (columns_meaning ring columns.now) ≡ true) }
    ensures exponent { IsErrOf result PolyError.Exponent
        → list_all (λ c. list_all (twist_fits ring.prime ring.vars e) c) (columns_meaning ring columns.now) ≡ false }
{
    let mut out = Vec::with_capacity(alloc, columns.len())?;
    let mut columns = columns;
    'columns: loop {
        let Some((c, later)) = columns.split_first() else {
            return Ok(out);
        };
        let entries = twisted_entries(alloc, ring, e, c.entries())?;
        out.push(Column::new(entries))?;
        columns = later;
    }
}

fn twisted_entries(alloc: Global, ring: Ring, e: u8, fs: &[Poly]) -> Result<Vec<Poly>, PolyError>
    requires { AreOver ring fs.now }
    ensures over { IfOk result (λ out. AreOver ring out.items) }
    ensures rows { IfOk result (λ out. length out.items ≡ length fs.now) }
    ensures value { IfOk result (λ out. column_meaning ring out.items
        ≡ map (frobenius_twist ring.prime ring.vars e) (column_meaning ring fs.now)) }
    ensures fits { OnOk result (list_all (twist_fits ring.prime ring.vars e) (column_meaning ring fs.now) ≡ true) }
    ensures exponent { IsErrOf result PolyError.Exponent
        → list_all (twist_fits ring.prime ring.vars e) (column_meaning ring fs.now) ≡ false }
{
    let mut out = Vec::with_capacity(alloc, fs.len())?;
    let mut fs = fs;
    'entries: loop {
        let Some((f, later)) = fs.split_first() else {
            return Ok(out);
        };
        out.push(twisted_entry(alloc, ring, e, f)?)?;
        fs = later;
    }
}

fn twisted_entry(alloc: Global, ring: Ring, e: u8, f: &Poly) -> Result<Poly, PolyError>
    requires { f.now.ring ≡ ring }
    ensures over { IfOk result (λ h. h.ring ≡ ring) }
    ensures value { IfOk result (λ h. meaning ring h.terms ≡ frobenius_twist ring.prime ring.vars e (meaning ring f.now.terms)) }
    ensures fits { OnOk result (twist_fits ring.prime ring.vars e (meaning ring f.now.terms) ≡ true) }
    ensures exponent { IsErrOf result PolyError.Exponent → twist_fits ring.prime ring.vars e (meaning ring f.now.terms) ≡ false }
{
    let twist = f.twist(alloc, e)?;
    Ok(twist)
}
