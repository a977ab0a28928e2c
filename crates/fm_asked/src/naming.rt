// Rows that name matrices.
ghost use Rattle.std.specs.Prelude.{IfOk, None, OnOk, Some, false, length, nat_eq, nat_lt, suc, true, ◌&&◌, ◌≡◌};
ghost use Rattle.fm_pres.specs.Blocks.{AreBlockParts, block_of};
ghost use Rattle.fm_lines.specs.Rows.{row_line};
ghost use Rattle.fm_pres.specs.Tables.{parts_in};
ghost use Rattle.fm_report.specs.Sheets.{Sheet, say};
ghost use Rattle.fm_asked.specs.Beginnings.{IsSaid};
ghost use Rattle.fm_asked.specs.Naming as definitions;
ghost use Rattle.fm_asked.specs.Naming.{Adds, AreNamed, Shows, is_naming, names_in_block, with_block, with_named};

use crate::narrowing::numbered;
use fm_lines::Row;
use fm_pres::{Block, Table};
use fm_problem::Query;
use std::alloc::AllocError;

/// Whether the row can be said; what it names is added to the block at hand, or to the lift of the identity.
pub fn say_row(
    table: &Table,
    block: &mut Option<Block>,
    identity: &mut Vec<u32>,
    asked: &Query,
    row: &Row<'_>,
) -> Result<bool, AllocError>
    ensures said { is_naming row.now ≡ true → IfOk result (λ said. (s : Sheet) → Shows (parts_in table.now) block.old identity.old.items asked.now s
        → IsSaid said (with_named s (parts_in table.now) block.new identity.new.items) (say s (row_line row.now))) }
    ensures unchanged { IfOk result (λ said. said ≡ false → (block.new ≡ block.old) × (identity.new.items ≡ identity.old.items)) }
    ensures known { OnOk result (AreNamed (parts_in table.now) block.old identity.old.items → AreNamed (parts_in table.now) block.new identity.new.items) }
{
    if let Row::Lambda { j, part } = row {
        return add_named(table, identity, *j, *part);
    }
    match block {
        Some(block) => say_in(table, block, row),
        None => say_beside(table, asked, row),
    }
}

/// Whether the row can be said, where a block is at hand.
fn say_in(table: &Table, block: &mut Block, row: &Row<'_>) -> Result<bool, AllocError>
    ensures said { names_in_block row.now ≡ true → IfOk result (λ said. (s : Sheet) → s.parts ≡ parts_in table.now
        → s.block ≡ Some (block_of (parts_in table.now) block.old) → IsSaid said (with_block s (parts_in table.now) block.new) (say s (row_line row.now))) }
    ensures unchanged { IfOk result (λ said. said ≡ false → block.new ≡ block.old) }
    ensures known { OnOk result (AreBlockParts (parts_in table.now) block.old → AreBlockParts (parts_in table.now) block.new) }
{
    match row {
        Row::D { j, part } => add_after(table, &mut block.differentials, *j, *part),
        Row::Theta { j, part } => add_named(table, &mut block.lift, *j, *part),
        Row::Cocycles { part, .. } => add_named(table, &mut block.cocycles, 0, *part),
        Row::Z { part } => add_named(table, &mut block.cocycles, 0, *part),
        Row::Relations { part, .. } => add_named(table, &mut block.kernels, 0, *part),
        Row::N { part } => add_named(table, &mut block.kernels, 0, *part),
        Row::Morphism { part } => add_named(table, &mut block.morphism, 0, *part),
        Row::U { part } => add_named(table, &mut block.morphism, 0, *part),
        Row::Chain { s, part, .. } => add_kernel(table, &mut block.kernels, *s, *part),
        Row::K { s, part } => add_kernel(table, &mut block.kernels, *s, *part),
        Row::Stable { t, .. } => Ok(*t < block.kernels.len() as u64),
        _ => Ok(true),
    }
}

/// Whether the row can be said, where no block is at hand.
fn say_beside(table: &Table, asked: &Query, row: &Row<'_>) -> Result<bool, AllocError>
    ensures { names_in_block row.now ≡ true → IfOk result (λ said. (s : Sheet) → s.parts ≡ parts_in table.now → s.block ≡ None
        → s.asked ≡ Some asked.now → IsSaid said s (say s (row_line row.now))) }
{
    match row {
        Row::D { part, .. } => match asked {
            Query::Member { .. } => Ok(numbered(table, *part).is_some()),
            _ => Ok(false),
        },
        row => Ok(!needs_block(row)),
    }
}

/// Whether the row names a matrix that only a block has, or speaks of the kernels of a block.
fn needs_block(row: &Row<'_>) -> bool
    ensures { result ≡ definitions.needs_block row.now }
{
    match row {
        Row::Theta { .. } => true,
        Row::Cocycles { .. } => true,
        Row::Z { .. } => true,
        Row::Relations { .. } => true,
        Row::N { .. } => true,
        Row::Morphism { .. } => true,
        Row::U { .. } => true,
        Row::Chain { .. } => true,
        Row::K { .. } => true,
        Row::Stable { .. } => true,
        _ => false,
    }
}

/// Adds a part whose place is the next, counted from 0.
fn add_named(table: &Table, list: &mut Vec<u32>, place: u64, part: u64) -> Result<bool, AllocError>
    ensures adds { Adds (parts_in table.now) list.old.items list.new.items (nat_eq place (length list.old.items)) part result }
    ensures unchanged { IfOk result (λ b. b ≡ false → list.new ≡ list.old) }
{
    if place != list.len() as u64 {
        return Ok(false);
    }
    match numbered(table, part) {
        Some(part) => {
            list.push(part)?;
            Ok(true)
        }
        None => Ok(false),
    }
}

/// Adds a part whose place is the next, counted from 1.
fn add_after(table: &Table, list: &mut Vec<u32>, place: u64, part: u64) -> Result<bool, AllocError>
    ensures adds { Adds (parts_in table.now) list.old.items list.new.items (nat_eq place (suc (length list.old.items))) part result }
    ensures unchanged { IfOk result (λ b. b ≡ false → list.new ≡ list.old) }
{
    if place == 0 {
        return Ok(false);
    }
    add_named(table, list, place - 1, part)
}

/// Adds a part whose place is the next, and not 0.
fn add_kernel(table: &Table, list: &mut Vec<u32>, place: u64, part: u64) -> Result<bool, AllocError>
    ensures adds { Adds (parts_in table.now) list.old.items list.new.items (nat_lt 0 place && nat_eq place (length list.old.items)) part result }
    ensures unchanged { IfOk result (λ b. b ≡ false → list.new ≡ list.old) }
{
    if place == 0 {
        return Ok(false);
    }
    add_named(table, list, place, part)
}
