// Lines that add a part to the table.
ghost use Rattle.std.specs.Prelude.{IfOk, OnErr, OnOk, length, nat_eq, ◌+◌, ◌<◌, ◌≡◌};
ghost use Rattle.fm_conditions.specs.Reasons.{Judges};
ghost use Rattle.fm_judge.specs.Judging.{State, Stage, part_line};
ghost use Rattle.fm_lines.specs.Rows.{IsFormOver, part_line as line_of_part};
ghost use Rattle.fm_pres.specs.Tables.{IsOver, parts_in};
ghost use Rattle.fm_asked.specs.Narrowing.{MOST};
ghost use Rattle.fm_asked.specs.Partings.{Enters, IsGrown, why_of, with_parts};

use crate::forms::form_in;
use fm_conditions::{Refused, Why};
use fm_lines::PartForm;
use fm_poly::Ring;
use fm_pres::{Form, PartFault, Table};
use std::alloc::{AllocError, Global};

/// The line `part` with this number and this form: over the ring of the table. A matrix that is given is moved into the table.
pub fn add_part(
    alloc: Global,
    ring: Ring,
    table: &mut Table,
    number: u64,
    form: PartForm,
) -> Result<(), Refused>
    requires ring { table.old.ring ≡ ring }
    requires over { IsFormOver ring form }
    ensures judged { (s : State) (stage : Stage) → s.sheet.parts ≡ parts_in table.old
        → Judges (λ _. with_parts s (parts_in table.new) stage) result (part_line s stage number (line_of_part number form)) }
    ensures ring { table.new.ring ≡ ring }
    ensures grown { OnOk result (IsGrown (parts_in table.old) (parts_in table.new)) }
    ensures unchanged { OnErr result (parts_in table.new ≡ parts_in table.old) }
{
    match is_next(table, number) {
        Ok(true) => {}
        Ok(false) => return Err(Refused::Bad(Why::Form)),
        Err(_) => return Err(Refused::Memory),
    }
    match form_in(alloc, ring, table, form) {
        Ok(Some(form)) => enter(table, form),
        Ok(None) => Err(Refused::Bad(Why::Shape)),
        Err(_) => Err(Refused::Memory),
    }
}

/// Whether this is the number of the next part. A table with 2^32 - 1 parts takes no more, and answers as it does where memory is short.
fn is_next(table: &Table, number: u64) -> Result<bool, AllocError>
    ensures next { IfOk result (λ b. b ≡ nat_eq number (length (parts_in table.now) + 1)) }
    ensures few { OnOk result (length (parts_in table.now) < MOST) }
{
    let count = table.len();
    if count == u32::MAX {
        return Err(AllocError);
    }
    Ok(number == count as u64 + 1)
}

fn enter(table: &mut Table, form: Form) -> Result<(), Refused>
    requires { IsOver table.old.ring form }
    ensures entered { Enters (parts_in table.old) (parts_in table.new) form result }
    ensures ring { table.new.ring ≡ table.old.ring }
{
    match table.add(form) {
        Ok(Ok(_number)) => Ok(()),
        Ok(Err(fault)) => Err(Refused::Bad(why(fault))),
        Err(_) => Err(Refused::Memory),
    }
}

fn why(fault: PartFault) -> Why
    ensures { result ≡ why_of fault }
{
    match fault {
        PartFault::Reference => Why::Reference,
        PartFault::Shape => Why::Shape,
        PartFault::Depth => Why::Depth,
    }
}
