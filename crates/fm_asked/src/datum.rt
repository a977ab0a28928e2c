// Lines that begin a block.
ghost use Rattle.std.specs.Prelude.{IfOk, List, OnOk, Some, false, map, option_map, ◌≡◌};
ghost use Rattle.fm_pres.specs.Blocks.{block_of};
ghost use Rattle.fm_report.specs.Parts.{Part};
ghost use Rattle.fm_report.specs.Sheets.{Sheet, new_block, say_datum as say_datum_line, with_last};
ghost use Rattle.fm_words.specs.Steps.{place};
ghost use Rattle.fm_problem.specs.Problems.{ideal_names};
ghost use Rattle.fm_asked.specs.Beginnings.{AreBlocks, HasBlocks, IsBlockIf, IsSaid, is_there, next_about, with_blocks};

use fm_pres::Block;
use fm_problem::{Ideal, Problem, Query};
use std::alloc::{AllocError, Global};

/// Whether a block can begin for the ideal of this name in this degree; it becomes the block at hand, and the one before it is finished.
pub fn say_datum(
    alloc: Global,
    problem: &Problem,
    asked: &Query,
    finished: &mut Vec<Block>,
    block: &mut Option<Block>,
    name: &[u8],
    degree: u64,
) -> Result<bool, AllocError>
    ensures said { IfOk result (λ said. (ps : List Part) (s : Sheet) → HasBlocks ps problem.now asked.now finished.old.items block.old s
        → IsSaid said (with_blocks s ps finished.new.items block.new) (say_datum_line s name.now degree)) }
    ensures unchanged { IfOk result (λ said. said ≡ false → (finished.new.items ≡ finished.old.items) × (block.new ≡ block.old)) }
    ensures known { (ps : List Part) → OnOk result (AreBlocks ps finished.old.items → IsBlockIf ps block.old
        → AreBlocks ps finished.new.items × IsBlockIf ps block.new) }
{
    let count = finished.len() + usize::from(block.is_some());
    let Some((ideal, next_degree)) = next_block(asked, count) else {
        return Ok(false);
    };
    if degree != next_degree as u64 {
        return Ok(false);
    }
    if !is_place(problem, name, ideal) {
        return Ok(false);
    }
    begin(alloc, finished, block, ideal, next_degree)?;
    Ok(true)
}

/// The number of the ideal, from 0, and the degree of the block that comes after so many.
fn next_block(asked: &Query, count: usize) -> Option<(u32, u8)>
    ensures { result ≡ next_about asked.now count }
{
    match (asked, count) {
        (Query::Zero { i, ideal }, 0) => Some((*ideal, *i)),
        (Query::Class { i, ideal, .. }, 0) => Some((*ideal, *i)),
        (Query::Root { i, ideal }, 0) => Some((*ideal, *i)),
        (Query::Invert { i, ideal, .. }, 0) => Some((*ideal, *i)),
        (Query::Support { i, ideal }, 0) => Some((*ideal, *i)),
        (Query::Map { i, source, .. }, 0) => Some((*source, *i)),
        (Query::Map { i, target, .. }, 1) => Some((*target, *i)),
        (Query::Resolution { i, ideal }, 0) => Some((*ideal, *i)),
        (Query::ExtOf { i, ideal }, 0) => Some((*ideal, *i)),
        _ => None,
    }
}

/// Whether the ideal of this name is the one with this number.
fn is_place(problem: &Problem, name: &[u8], ideal: u32) -> bool
    ensures { result ≡ is_there (place 0 name.now (ideal_names problem.now)) ideal }
{
    match ideal_place(problem.ideals.as_slice(), name) {
        Some(place) => place == ideal as usize,
        None => false,
    }
}

/// The place of an ideal, from 0.
pub fn ideal_place(ideals: &[Ideal], name: &[u8]) -> Option<usize>
    ensures { result ≡ place 0 name.now (map (λ i. i.name) ideals.now) }
{
    let mut rest = ideals;
    let mut k = 0usize;
    'ideals: loop {
        let Some((first, later)) = rest.split_first() else {
            return None;
        };
        if first.name.as_str().as_bytes() == name {
            return Some(k);
        }
        k += 1;
        rest = later;
    }
}

/// Begins a block for the ideal with this number, and finishes the one at hand.
fn begin(
    alloc: Global,
    finished: &mut Vec<Block>,
    block: &mut Option<Block>,
    ideal: u32,
    degree: u8,
) -> Result<(), AllocError>
    ensures finished { (ps : List Part) → OnOk result (map (block_of ps) finished.new.items ≡ with_last (map (block_of ps) finished.old.items) (option_map (block_of ps) block.old)) }
    ensures begun { (ps : List Part) → OnOk result (option_map (block_of ps) block.new ≡ Some (new_block ideal degree)) }
    ensures known { (ps : List Part) → OnOk result (AreBlocks ps finished.old.items → IsBlockIf ps block.old
        → AreBlocks ps finished.new.items × IsBlockIf ps block.new) }
{
    let next = Block {
        ideal,
        degree,
        differentials: Vec::new(alloc),
        lift: Vec::new(alloc),
        cocycles: Vec::new(alloc),
        kernels: Vec::new(alloc),
        morphism: Vec::new(alloc),
    };
    let Some(last) = block.replace(next) else {
        return Ok(());
    };
    finished.push(last)?;
    Ok(())
}
