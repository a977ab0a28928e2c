// Forms of parts that lines say, as tables keep them.
ghost use Rattle.std.specs.Prelude.{IfOk, length, map, nat_eq, ◌≡◌};
ghost use Rattle.std.specs.List.{list_all};
ghost use Rattle.fm_lines.specs.Rows.{AreColumnsOver, IsFormOver, columns_of};
ghost use Rattle.fm_pres.specs.Tables.{parts_in};
ghost use Rattle.fm_asked.specs.Forms as definitions;
ghost use Rattle.fm_asked.specs.Forms.{IsFormIf, IsGivenIf, IsOverIf};
ghost use Rattle.fm_asked.specs.Narrowing.{within};

use crate::narrowing::{all_within, narrowed};
use fm_lines::PartForm;
use fm_mat::{Column, Matrix};
use fm_poly::{Poly, Ring};
use fm_pres::{Form, Table};
use std::alloc::{AllocError, Global};

/// The form that a table keeps. None where a matrix is given that is too large, or whose columns aren't as long as it has rows.
pub(crate) fn form_in(
    alloc: Global,
    ring: Ring,
    table: &Table,
    form: PartForm,
) -> Result<Option<Form>, AllocError>
    requires { IsFormOver ring form }
    ensures form { IfOk result (IsFormIf ring (parts_in table.now) form) }
    ensures over { IfOk result (IsOverIf ring) }
{
    match form {
        PartForm::Given { rows, columns } => match given(alloc, ring, rows, columns) {
            Ok(Some(m)) => Ok(Some(Form::Given(m))),
            Ok(None) => Ok(None),
            Err(error) => Err(error),
        },
        PartForm::Twist { part, times } => Ok(Some(Form::Twist {
            part: narrowed(part),
            power: times,
        })),
        PartForm::Flip { part } => Ok(Some(Form::Flip(narrowed(part)))),
        PartForm::Beside { left, right } => {
            Ok(Some(Form::Beside(narrowed(left), narrowed(right))))
        }
        PartForm::Stack { above, below } => {
            Ok(Some(Form::Stack(narrowed(above), narrowed(below))))
        }
        PartForm::Times { left, right } => Ok(Some(Form::Times(narrowed(left), narrowed(right)))),
        PartForm::Pick { part, columns } => {
            let part = narrowed(part);
            match all_within(alloc, columns_at(table, part), &columns) {
                Ok(columns) => Ok(Some(Form::Pick { part, columns })),
                Err(error) => Err(error),
            }
        }
    }
}

/// The number of columns of a part; 0 where there is none.
fn columns_at(table: &Table, part: u32) -> u32
    ensures { result ≡ definitions.columns_at (parts_in table.now) part }
{
    if !table.is_part(part) {
        return 0;
    }
    let (_rows, columns) = table.shape(part);
    columns
}

/// The matrix with these columns. None where it is too large, or where a column isn't as long as it has rows.
fn given(
    alloc: Global,
    ring: Ring,
    rows: u64,
    columns: Vec<Vec<Poly>>,
) -> Result<Option<Matrix>, AllocError>
    requires { AreColumnsOver ring columns.items }
    ensures { IfOk result (IsGivenIf ring rows (columns_of columns.items)) }
{
    if rows > u32::MAX as u64 {
        return Ok(None);
    }
    if columns.len() > u32::MAX as usize {
        return Ok(None);
    }
    if !are_long(&columns, rows) {
        return Ok(None);
    }
    match as_columns(alloc, columns) {
        Ok(columns) => Ok(Some(Matrix::new(ring, rows as u32, columns))),
        Err(error) => Err(error),
    }
}

/// Whether each column has so many entries.
fn are_long(columns: &[Vec<Poly>], rows: u64) -> bool
    ensures { result ≡ list_all (λ c. nat_eq (length c.items) rows) columns.now }
{
    let mut left = columns;
    'columns: loop {
        let Some((column, later)) = left.split_first() else {
            return true;
        };
        if column.len() as u64 != rows {
            return false;
        }
        left = later;
    }
}

fn as_columns(alloc: Global, columns: Vec<Vec<Poly>>) -> Result<Vec<Column>, AllocError>
    ensures { IfOk result (λ v. v.items ≡ columns_of columns.items) }
{
    let mut made = Vec::new(alloc);
    let mut left = columns.into_iter();
    'columns: loop {
        let Some(entries) = left.next() else {
            return Ok(made);
        };
        made.push(Column::new(entries))?;
    }
}
