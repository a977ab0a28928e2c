// Whether columns lie outside of images.
ghost use Rattle.std.specs.Prelude.{Ok, IfOk, IsErrOf, OnOk, [], false, get_or, length, true, ℕ, ◌+◌, ◌-◌, ◌<◌, ◌^◌, ◌≡◌, ◌≤◌};
ghost use Rattle.std.specs.List.{list_all, list_any};
ghost use Rattle.fm_complete.specs.Divisions.{AreMembers, terms_of};
ghost use Rattle.fm_complete.specs.Divisors as divisors;
ghost use Rattle.fm_complete.specs.Standing.{AreOfShape};
ghost use Rattle.fm_gfp.specs.Primes.{prime_value};
ghost use Rattle.fm_mat.specs.Matrices.{column_meaning, matrix_meaning};
ghost use Rattle.fm_vec.specs.Components.{AreOver};
ghost use Rattle.fm_parts.specs.Conditions as conditions;
ghost use Rattle.fm_parts.specs.Conditions.{above_zeros, outside, twisted_members};
ghost use Rattle.fm_parts.specs.Replays as reasons;
ghost use Rattle.fm_parts.specs.Replays.{is_number, needs};
ghost use Rattle.fm_poly.specs.declared.ring.Ring.{Ring as RingValue};
ghost use Rattle.fm_pres.specs.Tables.{part_at, parts_in};
ghost use Rattle.fm_term.specs.Falling.{IsTerm};
ghost use Rattle.fm_vec.specs.Multiples.{twist_fits};
ghost use Rattle.fm_conditions.specs.Meanings.{CanBeFormed, IsKeptLog, IsOperand, log_of, operand_part};
ghost use Rattle.fm_conditions.specs.Generators.{excluding, twisting};
ghost use Rattle.fm_conditions.specs.Reasons.{Judges};

use crate::evaluating::{evaluated, part_value, same};
use crate::{KeptLog, Operand, Refused, Why};
use fm_complete::divides;
use fm_mat::Matrix;
use fm_poly::{Poly, PolyError, Ring};
use fm_pres::Table;
use fm_replay::{Fault, Refusal, reduce_by};
use fm_syz::twisted_members;
use fm_term::VTerm;
use fm_vec::Vector;
use std::alloc::{AllocError, Global};

/// Whether a column of v, above zeros and reduced as the numbers say by the members of the log twisted e times, ends outside of the image of a.
pub(crate) fn lies_outside(
    alloc: Global,
    table: &mut Table,
    log: &KeptLog,
    e: u8,
    a: &Operand,
    v: &Operand,
    column: u32,
    by: &[u32],
) -> Result<(), Refused>
    requires some { 1 ≤ table.old.ring.vars }
    requires few { table.old.ring.vars ≤ 8 }
    requires log { IsKeptLog table.old.ring (parts_in table.old) log.now }
    requires matrix { IsOperand table.old.ring (parts_in table.old) a.now }
    requires vector { IsOperand table.old.ring (parts_in table.old) v.now }
    requires matrix_formable { CanBeFormed table.old.ring (parts_in table.old) a.now }
    requires vector_formable { CanBeFormed table.old.ring (parts_in table.old) v.now }
    requires column { 1 ≤ column }
    requires fits { let r = table.old.ring in let ps = parts_in table.old in
        conditions.shapes_fit (outside (log_of ps log.now) e (operand_part r ps a.now) (operand_part r ps v.now) column by.now) ≡ true }
    ensures judges { let r = table.old.ring in let ps = parts_in table.old in Judges (λ _. tt) result
        (conditions.holds r (outside (log_of ps log.now) e (operand_part r ps a.now) (operand_part r ps v.now) column by.now)) }
    ensures unchanged { table.new ≡ table.old }
{
    let logged = match part_value(alloc, table, log.part) {
        Ok(logged) => logged,
        Err(refused) => return Err(refused),
    };
    let a = match evaluated(alloc, table, a) {
        Ok(a) => a,
        Err(refused) => return Err(refused),
    };
    match same(alloc, &logged, &a, Why::Reduction) {
        Ok(()) => {}
        Err(refused) => return Err(refused),
    }
    let v = match evaluated(alloc, table, v) {
        Ok(v) => v,
        Err(refused) => return Err(refused),
    };
    let size = Size {
        ring: a.ring(),
        rows: a.rows(),
        width: a.cols(),
    };
    ends_outside(alloc, size, &log.members, e, &v, column, by)
}

// The ring, and the numbers of rows and of columns of a matrix whose graph a log completed.
#[derive(Clone, Copy)]
struct Size {
    ring: Ring,
    rows: u32,
    width: u32,
}

fn ends_outside(
    alloc: Global,
    size: Size,
    members: &[Vector],
    e: u8,
    v: &Matrix,
    column: u32,
    by: &[u32],
) -> Result<(), Refused>
    requires room { size.rows + size.width < 2 ^ 32 }
    requires members { AreMembers size.ring (size.rows + size.width) members.now }
    requires ring { v.now.ring ≡ size.ring }
    requires rows { v.now.rows ≡ size.rows }
    requires column { 1 ≤ column }
    ensures { let r = size.ring in Judges (λ _. tt) result
        (excluding r size.rows e (terms_of members.now) by.now (above_zeros r (get_or (matrix_meaning r v.now).columns (column - 1) []) size.width)) }
{
    let members = match twisted(alloc, size, members, e) {
        Ok(members) => members,
        Err(refused) => return Err(refused),
    };
    let start = column_above_zeros(alloc, size, v, column)?;
    let rest = match reduced(alloc, size, &members, by, start) {
        Ok(rest) => rest,
        Err(refused) => return Err(refused),
    };
    if is_outside(size, &members, &rest) {
        Ok(())
    } else {
        Err(Refused::Bad(Why::Reduction))
    }
}

// The members, twisted e times.
fn twisted(alloc: Global, size: Size, members: &[Vector], e: u8) -> Result<Vec<Vector>, Refused>
    requires room { size.rows + size.width < 2 ^ 32 }
    requires members { AreMembers size.ring (size.rows + size.width) members.now }
    ensures shape { IfOk result (λ out. AreOfShape size.ring (size.rows + size.width) out.items) }
    ensures judges { Judges (λ out. terms_of out.items) result (twisting size.ring e (terms_of members.now)) }
{
    match twisted_members(alloc, size.ring, size.rows + size.width, e, members) {
        Ok(members) => Ok(members),
        Err(PolyError::Exponent) => Err(Refused::Bad(Why::Exponents)),
        Err(PolyError::Memory) => Err(Refused::Memory),
    }
}

// Column number `column` of v above zeros; a column that doesn't exist is zero.
fn column_above_zeros(
    alloc: Global,
    size: Size,
    v: &Matrix,
    column: u32,
) -> Result<Vector, AllocError>
    requires room { size.rows + size.width < 2 ^ 32 }
    requires ring { v.now.ring ≡ size.ring }
    requires rows { v.now.rows ≡ size.rows }
    requires column { 1 ≤ column }
    ensures shape { IfOk result (λ w. (w.ring ≡ size.ring) × (w.rows ≡ size.rows + size.width)) }
    ensures terms { let r = size.ring in IfOk result (λ w. w.terms ≡ above_zeros r (get_or (matrix_meaning r v.now).columns (column - 1) []) size.width) }
{
    let columns = v.columns();
    if column as usize > columns.len() {
        return Ok(Vector::from_falling(size.ring, size.rows + size.width, Vec::new(alloc)));
    }
    entries_above_zeros(alloc, size, columns[column as usize - 1].entries())
}

fn entries_above_zeros(alloc: Global, size: Size, entries: &[Poly]) -> Result<Vector, AllocError>
    requires room { size.rows + size.width < 2 ^ 32 }
    requires over { AreOver size.ring entries.now }
    requires rows { length entries.now ≡ size.rows }
    ensures shape { IfOk result (λ w. (w.ring ≡ size.ring) × (w.rows ≡ size.rows + size.width)) }
    ensures terms { let r = size.ring in IfOk result (λ w. w.terms ≡ above_zeros r (column_meaning r entries.now) size.width) }
{
    let upper = Vector::from_column(alloc, size.ring, entries)?;
    let _head = upper.head();
    Ok(Vector::from_falling(size.ring, size.rows + size.width, upper.into_terms()))
}

fn reduced(
    alloc: Global,
    size: Size,
    members: &[Vector],
    by: &[u32],
    start: Vector,
) -> Result<Vector, Refused>
    requires members { AreOfShape size.ring (size.rows + size.width) members.now }
    requires ring { start.ring ≡ size.ring }
    requires rows { start.rows ≡ size.rows + size.width }
    ensures shape { IfOk result (λ w. (w.ring ≡ size.ring) × (w.rows ≡ size.rows + size.width)) }
    ensures judges { Judges (λ w. w.terms) result (reasons.reduce_by size.ring reasons.Reduction (terms_of members.now) by.now start.terms) }
{
    match reduce_by(alloc, size.ring, size.rows + size.width, members, by, start) {
        Ok(rest) => Ok(rest),
        Err(Refusal::Memory) => Err(Refused::Memory),
        Err(Refusal::Bad(Fault::Reference)) => Err(Refused::Bad(Why::Reference)),
        Err(Refusal::Bad(Fault::Step)) => Err(Refused::Bad(Why::Reduction)),
        Err(Refusal::Bad(Fault::Exponents)) => Err(Refused::Bad(Why::Exponents)),
    }
}

// Whether the head stands in the upper block, and no member's head divides it.
fn is_outside(size: Size, members: &[Vector], rest: &Vector) -> bool
    requires room { size.rows + size.width < 2 ^ 32 }
    requires members { AreOfShape size.ring (size.rows + size.width) members.now }
    requires ring { rest.now.ring ≡ size.ring }
    ensures { result ≡ conditions.is_outside size.rows (terms_of members.now) rest.now.terms }
{
    let Some(head) = rest.head() else {
        return false;
    };
    head.component <= size.rows
        && !some_head_divides(size.ring, size.rows + size.width, members, &head)
}

fn some_head_divides(ring: Ring, rows: u32, members: &[Vector], s: &VTerm) -> bool
    requires term { IsTerm ring.prime ring.vars s.now }
    requires members { AreOfShape ring rows members.now }
    ensures { result ≡ list_any (λ g. divisors.head_divides g s.now) (terms_of members.now) }
{
    let mut members = members;
    'members: loop {
        let Some((g, later)) = members.split_first() else {
            return false;
        };
        if head_divides(ring, g, s) {
            return true;
        }
        members = later;
    }
}

fn head_divides(ring: Ring, g: &Vector, s: &VTerm) -> bool
    requires term { IsTerm ring.prime ring.vars s.now }
    requires ring { g.now.ring ≡ ring }
    ensures { result ≡ divisors.head_divides g.now.terms s.now }
{
    match g.head() {
        Some(t) => divides(ring, &t, s),
        None => false,
    }
}
