// The query at hand, and the lines that add a part to its certificate.
ghost use Rattle.std.specs.Prelude.{OnOk, ◌≡◌};
ghost use Rattle.fm_conditions.specs.Reasons.{Judges};
ghost use Rattle.fm_judge.specs.Judging.{Stage, State, part_line};
ghost use Rattle.fm_lines.specs.Rows.{IsFormOver, part_line as line_of_part};
ghost use Rattle.fm_pres.specs.Tables.{parts_in};
ghost use Rattle.fm_asked.specs.Partings.{IsGrown, with_parts};
ghost use Rattle.fm_asked.specs.States.{IsAsked, SaysAsked};

use crate::parts::add_part;
use fm_conditions::{KeptLog, Refused};
use fm_lines::PartForm;
use fm_poly::Ring;
use fm_pres::{Block, Table};
use fm_problem::Query;
use std::alloc::Global;

/// The query at hand, and what its certificate has laid down: its parts, the logs that have ended, the finished blocks, the block at hand, and the lift of
/// the identity.
#[derive(Drop)]
pub struct Asked {
    pub query: Query,
    pub table: Table,
    pub logs: Vec<KeptLog>,
    pub finished: Vec<Block>,
    pub block: Option<Block>,
    pub identity: Vec<u32>,
}

/// The line `part` under the query at hand. What names parts that are there means the same parts afterwards.
pub fn part_row(
    alloc: Global,
    ring: Ring,
    asked: &mut Asked,
    number: u64,
    form: PartForm,
) -> Result<(), Refused>
    requires asked { IsAsked ring asked.old }
    requires over { IsFormOver ring form }
    ensures asked { IsAsked ring asked.new }
    ensures judged { (s : State) (stage : Stage) → SaysAsked asked.old s
        → Judges (λ _. with_parts s (parts_in asked.new.table) stage) result (part_line s stage number (line_of_part number form)) }
    ensures says { (s : State) (stage : Stage) → SaysAsked asked.old s → SaysAsked asked.new (with_parts s (parts_in asked.new.table) stage) }
    ensures grown { OnOk result (IsGrown (parts_in asked.old.table) (parts_in asked.new.table)) }
{
    add_part(alloc, ring, &mut asked.table, number, form)
}
