// Columns.
ghost use Rattle.std.specs.Prelude.{IfOk, ◌≡◌};

use crate::copying::push_entries;
use fm_poly::Poly;
use std::alloc::{AllocError, Global};
use std::marker::Model;

/// A column of polynomials.
#[derive(Drop)]
pub struct Column {
    entries: Vec<Poly>,
}

impl Model for Column {
    ghost use Rattle.std.specs.Prelude.{List};
    ghost use Rattle.fm_poly.specs.Polys.{PolyValue};

    ghost Value = { List PolyValue };

    ghost view = { λ c. c.entries.items };
}

impl Column {
    /// The column with these entries, which it takes over.
    pub fn new(entries: Vec<Poly>) -> Column
        ensures { result ≡ entries.items }
    {
        Column { entries }
    }

    pub fn entries(&self) -> &[Poly]
        ensures { result.now ≡ self.now }
    {
        &self.entries
    }

    /// The column with copies of these entries.
    pub fn copy_of(alloc: Global, entries: &[Poly]) -> Result<Column, AllocError>
        ensures { IfOk result (λ c. c ≡ entries.now) }
    {
        let mut copies = Vec::with_capacity(alloc, entries.len())?;
        push_entries(alloc, entries, &mut copies)?;
        Ok(Column { entries: copies })
    }

    pub fn copy(&self, alloc: Global) -> Result<Column, AllocError>
        ensures { IfOk result (λ c. c ≡ self.now) }
    {
        Column::copy_of(alloc, &self.entries)
    }
}
