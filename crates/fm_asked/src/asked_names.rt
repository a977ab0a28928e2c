// Rows that name matrices, and lines that begin a block, under the query at hand.
ghost use Rattle.std.specs.Prelude.{IfOk, List, OnOk, Some, true, ◌≡◌};
ghost use Rattle.fm_judge.specs.Judging.{State};
ghost use Rattle.fm_lines.specs.Rows.{row_line};
ghost use Rattle.fm_poly.specs.declared.ring.Ring.{Ring};
ghost use Rattle.fm_pres.specs.Tables.{parts_in};
ghost use Rattle.fm_report.specs.Sheets.{say, say_datum as say_datum_line};
ghost use Rattle.fm_asked.specs.Beginnings.{IsSaid, with_blocks};
ghost use Rattle.fm_asked.specs.Naming.{is_naming, with_named};
ghost use Rattle.fm_asked.specs.States.{IsAsked, SaysAsked, with_sheet};

use crate::asked::Asked;
use crate::datum::say_datum;
use crate::naming::say_row;
use fm_lines::Row;
use fm_problem::Problem;
use std::alloc::{AllocError, Global};

/// Whether the row can be said under the query at hand; what it names is added.
pub fn name_row(asked: &mut Asked, row: &Row<'_>) -> Result<bool, AllocError>
    ensures said { is_naming row.now ≡ true → IfOk result (λ said. (s : State) → SaysAsked asked.old s
        → IsSaid said (with_named s.sheet (parts_in asked.old.table) asked.new.block asked.new.identity.items) (say s.sheet (row_line row.now))) }
    ensures says { (s : State) → SaysAsked asked.old s
        → SaysAsked asked.new (with_sheet s (with_named s.sheet (parts_in asked.old.table) asked.new.block asked.new.identity.items)) }
    ensures asked { (r : Ring) → OnOk result (IsAsked r asked.old → IsAsked r asked.new) }
    ensures table { asked.new.table ≡ asked.old.table }
{
    say_row(
        &asked.table,
        &mut asked.block,
        &mut asked.identity,
        &asked.query,
        row,
    )
}

/// Whether a block can begin under the query at hand.
pub fn datum_row(
    alloc: Global,
    problem: &Problem,
    asked: &mut Asked,
    name: &[u8],
    degree: u64,
) -> Result<bool, AllocError>
    ensures said { IfOk result (λ said. (s : State) → s.sheet.head ≡ Some problem.now → SaysAsked asked.old s
        → IsSaid said (with_blocks s.sheet (parts_in asked.old.table) asked.new.finished.items asked.new.block) (say_datum_line s.sheet name.now degree)) }
    ensures says { (s : State) → SaysAsked asked.old s
        → SaysAsked asked.new (with_sheet s (with_blocks s.sheet (parts_in asked.old.table) asked.new.finished.items asked.new.block)) }
    ensures asked { (r : Ring) → OnOk result (IsAsked r asked.old → IsAsked r asked.new) }
    ensures table { asked.new.table ≡ asked.old.table }
{
    say_datum(
        alloc,
        problem,
        &asked.query,
        &mut asked.finished,
        &mut asked.block,
        name,
        degree,
    )
}
