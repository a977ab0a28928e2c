// The entries of the first row of a part that aren't zero.
ghost use Rattle.std.specs.Prelude.{IfOk, OnOk, [], length, suc, true, ◌<◌, ◌++◌, ◌∷◌, ◌^◌, ◌≡◌, ◌≤◌};
ghost use Rattle.fm_mat.specs.Matrices.{AreColumns, column_meaning, columns_meaning, matrix_meaning};
ghost use Rattle.fm_parts.specs.Conditions as conditions;
ghost use Rattle.fm_parts.specs.Conditions.{lists};
ghost use Rattle.fm_parts.specs.Replays as reasons;
ghost use Rattle.fm_parts.specs.Replays.{is_number, needs};
ghost use Rattle.fm_parts.specs.Values.{same_vector};
ghost use Rattle.fm_pres.specs.Tables.{part_at, parts_in};
ghost use Rattle.fm_vec.specs.Components.{AreOver};
ghost use Rattle.fm_conditions.specs.Listings.{nonzeros};
ghost use Rattle.fm_conditions.specs.Reasons.{Judges};

use crate::comparing::{same_column, vector_of};
use crate::evaluating::part_value;
use crate::{Refused, Why};
use fm_mat::{Column, Matrix};
use fm_poly::{Poly, Ring};
use fm_pres::Table;
use std::alloc::{AllocError, Global};

/// Whether the entries of the first row of a part that aren't zero are these.
pub(crate) fn are_listed(
    alloc: Global,
    table: &mut Table,
    polynomials: &[Poly],
    part: u32,
) -> Result<(), Refused>
    requires over { AreOver table.old.ring polynomials.now }
    requires part { is_number (parts_in table.old) part ≡ true }
    ensures judges { let r = table.old.ring in Judges (λ _. tt) result (conditions.holds r (lists polynomials.now (part_at (parts_in table.old) part))) }
    ensures unchanged { table.new ≡ table.old }
{
    let value = match part_value(alloc, table, part) {
        Ok(value) => value,
        Err(refused) => return Err(refused),
    };
    let row = nonzero_row(alloc, &value)?;
    listed(alloc, value.ring(), polynomials, &row)
}

fn listed(alloc: Global, ring: Ring, polynomials: &[Poly], row: &[Poly]) -> Result<(), Refused>
    requires over { AreOver ring polynomials.now }
    requires row { AreOver ring row.now }
    requires few { length row.now < 2 ^ 32 }
    ensures { Judges (λ _. tt) result (needs (same_vector ring (column_meaning ring polynomials.now) (column_meaning ring row.now)) reasons.Value) }
{
    if polynomials.len() != row.len() {
        return Err(Refused::Bad(Why::Value));
    }
    if same_column(alloc, ring, polynomials, row)? {
        Ok(())
    } else {
        Err(Refused::Bad(Why::Value))
    }
}

fn nonzero_row(alloc: Global, a: &Matrix) -> Result<Vec<Poly>, AllocError>
    ensures over { IfOk result (λ out. AreOver a.now.ring out.items) }
    ensures few { IfOk result (λ out. length out.items < 2 ^ 32) }
    ensures value { let r = a.now.ring in IfOk result (λ out. column_meaning r out.items ≡ conditions.nonzero_entries r (matrix_meaning r a.now)) }
{
    nonzero_firsts(alloc, a.ring(), a.rows(), a.columns())
}

fn nonzero_firsts(
    alloc: Global,
    ring: Ring,
    rows: u32,
    columns: &[Column],
) -> Result<Vec<Poly>, AllocError>
    requires shape { AreColumns ring rows columns.now }
    ensures over { IfOk result (λ out. AreOver ring out.items) }
    ensures few { IfOk result (λ out. length out.items ≤ length columns.now) }
    ensures value { IfOk result (λ out. column_meaning ring out.items ≡ nonzeros ring (columns_meaning ring columns.now)) }
{
    let mut out = Vec::new(alloc);
    let mut columns = columns;
    'columns: loop {
        let Some((c, later)) = columns.split_first() else {
            return Ok(out);
        };
        push_nonzero(alloc, ring, c.entries(), &mut out)?;
        columns = later;
    }
}

// Appends the first entry, where there is one that isn't zero.
fn push_nonzero(
    alloc: Global,
    ring: Ring,
    entries: &[Poly],
    out: &mut Vec<Poly>,
) -> Result<(), AllocError>
    requires over { AreOver ring entries.now }
    requires out { AreOver ring out.old.items }
    ensures over { OnOk result (AreOver ring out.new.items) }
    ensures few { OnOk result (length out.new.items ≤ suc (length out.old.items)) }
    ensures value { OnOk result (column_meaning ring out.new.items ≡ column_meaning ring out.old.items ++ nonzeros ring (column_meaning ring entries.now ∷ [])) }
{
    let Some((f, _later)) = entries.split_first() else {
        return Ok(());
    };
    let (first, _later) = entries.split_at(1);
    if vector_of(alloc, ring, first)?.head().is_some() {
        out.push(f.copy(alloc)?)?;
    }
    Ok(())
}
