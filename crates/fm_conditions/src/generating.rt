// Whether a part generates what a matrix sends to zero.
ghost use Rattle.std.specs.Prelude.{IfOk, IsErrOf, false, length, true, ℕ, ◌+◌, ◌<◌, ◌^◌, ◌≡◌, ◌≤◌};
ghost use Rattle.fm_complete.specs.Divisions.{AreMembers, terms_of};
ghost use Rattle.fm_groebner.specs.Syzygies.{lower_members};
ghost use Rattle.fm_mat.specs.Matrices.{matrix_meaning};
ghost use Rattle.fm_parts.specs.Conditions as conditions;
ghost use Rattle.fm_parts.specs.Conditions.{holds_generating, kernel, preimage};
ghost use Rattle.fm_parts.specs.Replays.{is_number};
ghost use Rattle.fm_parts.specs.Shapes.{fits, rows_of};
ghost use Rattle.fm_parts.specs.Values.{is_within_bound};
ghost use Rattle.fm_pres.specs.Kept.{IsValue};
ghost use Rattle.fm_pres.specs.Tables.{part_at, parts_in};
ghost use Rattle.fm_report.specs.Parts.{Part, beside, stack, times};
ghost use Rattle.fm_conditions.specs.Meanings.{CanBeFormed, IsKeptLog, IsOperand, log_of, operand_part};
ghost use Rattle.fm_conditions.specs.Reasons.{Judges};
ghost use Rattle.fm_conditions.specs.Generators.{covering, vanishing};

use crate::comparing::is_zero_matrix;
use crate::evaluating::{evaluated, part_value, same, told};
use crate::forming::{joined, multiplied, stacked};
use crate::shaping::part_shape;
use crate::syzygies::first_syzygies;
use crate::valuing::value_of;
use crate::{KeptLog, Operand, Refused, Why};
use fm_mat::Matrix;
use fm_poly::PolyError;
use fm_pres::Table;
use std::alloc::Global;
use std::rc::Rc;

/// Whether part c generates the kernel of a.
pub(crate) fn generates_kernel(
    alloc: Global,
    table: &mut Table,
    log: &KeptLog,
    a: &Operand,
    c: u32,
    x: u32,
    w: u32,
) -> Result<(), Refused>
    requires some { 1 ≤ table.old.ring.vars }
    requires few { table.old.ring.vars ≤ 8 }
    requires log { IsKeptLog table.old.ring (parts_in table.old) log.now }
    requires operand { IsOperand table.old.ring (parts_in table.old) a.now }
    requires formable { CanBeFormed table.old.ring (parts_in table.old) a.now }
    requires c { is_number (parts_in table.old) c ≡ true }
    requires x { is_number (parts_in table.old) x ≡ true }
    requires w { is_number (parts_in table.old) w ≡ true }
    requires fits { let r = table.old.ring in let ps = parts_in table.old in
        conditions.shapes_fit (kernel (log_of ps log.now) (operand_part r ps a.now) (part_at ps c) (part_at ps x) (part_at ps w)) ≡ true }
    ensures judges { let r = table.old.ring in let ps = parts_in table.old in Judges (λ _. tt) result
        (conditions.holds r (kernel (log_of ps log.now) (operand_part r ps a.now) (part_at ps c) (part_at ps x) (part_at ps w))) }
    ensures unchanged { table.new ≡ table.old }
{
    let logged = match part_value(alloc, table, log.part) {
        Ok(logged) => logged,
        Err(refused) => return Err(refused),
    };
    let g = match evaluated(alloc, table, a) {
        Ok(g) => g,
        Err(refused) => return Err(refused),
    };
    generated(alloc, table, log, &logged, &g, c, x, w)
}

/// Whether part c generates all that a sends into the image of b.
pub(crate) fn generates_preimage(
    alloc: Global,
    table: &mut Table,
    log: &KeptLog,
    a: &Operand,
    b: &Operand,
    c: u32,
    x: u32,
    w: u32,
) -> Result<(), Refused>
    requires some { 1 ≤ table.old.ring.vars }
    requires few { table.old.ring.vars ≤ 8 }
    requires log { IsKeptLog table.old.ring (parts_in table.old) log.now }
    requires first { IsOperand table.old.ring (parts_in table.old) a.now }
    requires second { IsOperand table.old.ring (parts_in table.old) b.now }
    requires first_formable { CanBeFormed table.old.ring (parts_in table.old) a.now }
    requires second_formable { CanBeFormed table.old.ring (parts_in table.old) b.now }
    requires c { is_number (parts_in table.old) c ≡ true }
    requires x { is_number (parts_in table.old) x ≡ true }
    requires w { is_number (parts_in table.old) w ≡ true }
    requires fits { let r = table.old.ring in let ps = parts_in table.old in
        conditions.shapes_fit (preimage (log_of ps log.now) (operand_part r ps a.now) (operand_part r ps b.now) (part_at ps c) (part_at ps x) (part_at ps w)) ≡ true }
    ensures judges { let r = table.old.ring in let ps = parts_in table.old in Judges (λ _. tt) result
        (conditions.holds r (preimage (log_of ps log.now) (operand_part r ps a.now) (operand_part r ps b.now) (part_at ps c) (part_at ps x) (part_at ps w))) }
    ensures unchanged { table.new ≡ table.old }
{
    let logged = match part_value(alloc, table, log.part) {
        Ok(logged) => logged,
        Err(refused) => return Err(refused),
    };
    let g = match told(both_of(alloc, table, a, b)) {
        Ok(g) => g,
        Err(refused) => return Err(refused),
    };
    generated(alloc, table, log, &logged, &g, c, x, w)
}

// The value of a with that of b to its right.
fn both_of(
    alloc: Global,
    table: &mut Table,
    a: &Operand,
    b: &Operand,
) -> Result<Rc<Matrix>, PolyError>
    requires some { 1 ≤ table.old.ring.vars }
    requires few { table.old.ring.vars ≤ 8 }
    requires first { IsOperand table.old.ring (parts_in table.old) a.now }
    requires second { IsOperand table.old.ring (parts_in table.old) b.now }
    requires first_formable { CanBeFormed table.old.ring (parts_in table.old) a.now }
    requires second_formable { CanBeFormed table.old.ring (parts_in table.old) b.now }
    requires fits { let r = table.old.ring in let ps = parts_in table.old in fits (beside (operand_part r ps a.now) (operand_part r ps b.now)) ≡ true }
    ensures value { let r = table.old.ring in let ps = parts_in table.old in
        IfOk result (λ m. IsValue r (beside (operand_part r ps a.now) (operand_part r ps b.now)) m.value) }
    ensures exponent { let r = table.old.ring in let ps = parts_in table.old in
        IsErrOf result PolyError.Exponent → is_within_bound r (beside (operand_part r ps a.now) (operand_part r ps b.now)) ≡ false }
    ensures unchanged { table.new ≡ table.old }
{
    let a = value_of(alloc, table, a)?;
    let b = value_of(alloc, table, b)?;
    joined(alloc, &a, &b)
}

// Whether the log is of the matrix G, G * (C above X) = 0, and the first rows of the syzygies by the log are C * W.
fn generated(
    alloc: Global,
    table: &mut Table,
    log: &KeptLog,
    logged: &Matrix,
    g: &Matrix,
    c: u32,
    x: u32,
    w: u32,
) -> Result<(), Refused>
    requires c { is_number (parts_in table.old) c ≡ true }
    requires x { is_number (parts_in table.old) x ≡ true }
    requires w { is_number (parts_in table.old) w ≡ true }
    requires logged { logged.now.ring ≡ table.old.ring }
    requires ring { g.now.ring ≡ table.old.ring }
    requires members { AreMembers table.old.ring (g.now.rows + length g.now.columns) log.now.members.items }
    requires syzygies { length (lower_members g.now.rows (terms_of log.now.members.items)) < 2 ^ 32 }
    requires under { fits (stack (part_at (parts_in table.old) c) (part_at (parts_in table.old) x)) ≡ true }
    requires inner { rows_of (part_at (parts_in table.old) c) + rows_of (part_at (parts_in table.old) x) ≡ length g.now.columns }
    requires cover { fits (times (part_at (parts_in table.old) c) (part_at (parts_in table.old) w)) ≡ true }
    ensures judges { let r = table.old.ring in let ps = parts_in table.old in (G : Part) → IsValue r (part_at ps log.now.part) logged.now → IsValue r G g.now
        → Judges (λ _. tt) result (holds_generating r (log_of ps log.now) G (part_at ps c) (part_at ps x) (part_at ps w)) }
    ensures unchanged { table.new ≡ table.old }
{
    match same(alloc, logged, g, Why::Value) {
        Ok(()) => {}
        Err(refused) => return Err(refused),
    }
    match vanishes(alloc, table, g, c, x) {
        Ok(()) => {}
        Err(refused) => return Err(refused),
    }
    covers(alloc, table, log, g, c, w)
}

// Whether G * (C above X) = 0.
fn vanishes(alloc: Global, table: &mut Table, g: &Matrix, c: u32, x: u32) -> Result<(), Refused>
    requires c { is_number (parts_in table.old) c ≡ true }
    requires x { is_number (parts_in table.old) x ≡ true }
    requires ring { g.now.ring ≡ table.old.ring }
    requires under { fits (stack (part_at (parts_in table.old) c) (part_at (parts_in table.old) x)) ≡ true }
    requires inner { rows_of (part_at (parts_in table.old) c) + rows_of (part_at (parts_in table.old) x) ≡ length g.now.columns }
    ensures judges { let r = table.old.ring in let ps = parts_in table.old in (G : Part) → IsValue r G g.now → Judges (λ _. tt) result (vanishing r G (part_at ps c) (part_at ps x)) }
    ensures unchanged { table.new ≡ table.old }
{
    let product = match told(product_below(alloc, table, g, c, x)) {
        Ok(product) => product,
        Err(refused) => return Err(refused),
    };
    if is_zero_matrix(alloc, &product)? {
        Ok(())
    } else {
        Err(Refused::Bad(Why::Value))
    }
}

// G * (C above X)
fn product_below(
    alloc: Global,
    table: &mut Table,
    g: &Matrix,
    c: u32,
    x: u32,
) -> Result<Rc<Matrix>, PolyError>
    requires c { is_number (parts_in table.old) c ≡ true }
    requires x { is_number (parts_in table.old) x ≡ true }
    requires ring { g.now.ring ≡ table.old.ring }
    requires under { fits (stack (part_at (parts_in table.old) c) (part_at (parts_in table.old) x)) ≡ true }
    requires inner { rows_of (part_at (parts_in table.old) c) + rows_of (part_at (parts_in table.old) x) ≡ length g.now.columns }
    ensures value { let r = table.old.ring in let ps = parts_in table.old in (G : Part) → IsValue r G g.now
        → IfOk result (λ m. IsValue r (times G (stack (part_at ps c) (part_at ps x))) m.value) }
    ensures exponent { let r = table.old.ring in let ps = parts_in table.old in (G : Part) → IsValue r G g.now
        → IsErrOf result PolyError.Exponent → is_within_bound r (times G (stack (part_at ps c) (part_at ps x))) ≡ false }
    ensures unchanged { table.new ≡ table.old }
{
    let c = table.value(alloc, c)?;
    let x = table.value(alloc, x)?;
    let under = stacked(alloc, &c, &x)?;
    multiplied(alloc, g, &under)
}

// Whether the first rows of the syzygies by the log, as many as C has, are C * W.
fn covers(
    alloc: Global,
    table: &mut Table,
    log: &KeptLog,
    g: &Matrix,
    c: u32,
    w: u32,
) -> Result<(), Refused>
    requires c { is_number (parts_in table.old) c ≡ true }
    requires w { is_number (parts_in table.old) w ≡ true }
    requires ring { g.now.ring ≡ table.old.ring }
    requires members { AreMembers table.old.ring (g.now.rows + length g.now.columns) log.now.members.items }
    requires syzygies { length (lower_members g.now.rows (terms_of log.now.members.items)) < 2 ^ 32 }
    requires front { rows_of (part_at (parts_in table.old) c) ≤ length g.now.columns }
    requires cover { fits (times (part_at (parts_in table.old) c) (part_at (parts_in table.old) w)) ≡ true }
    ensures judges { let r = table.old.ring in let ps = parts_in table.old in
        Judges (λ _. tt) result (covering r (terms_of log.now.members.items) (matrix_meaning r g.now) (part_at ps c) (part_at ps w)) }
    ensures unchanged { table.new ≡ table.old }
{
    let rows = part_shape(table, c).rows;
    let cover = match told(product_of(alloc, table, c, w)) {
        Ok(cover) => cover,
        Err(refused) => return Err(refused),
    };
    let first = first_syzygies(alloc, g, &log.members, rows)?;
    same(alloc, &first, &cover, Why::Value)
}

// The product of two parts.
fn product_of(alloc: Global, table: &mut Table, a: u32, b: u32) -> Result<Rc<Matrix>, PolyError>
    requires a { is_number (parts_in table.old) a ≡ true }
    requires b { is_number (parts_in table.old) b ≡ true }
    requires fits { fits (times (part_at (parts_in table.old) a) (part_at (parts_in table.old) b)) ≡ true }
    ensures value { let ps = parts_in table.old in IfOk result (λ m. IsValue table.old.ring (times (part_at ps a) (part_at ps b)) m.value) }
    ensures exponent { let ps = parts_in table.old in IsErrOf result PolyError.Exponent → is_within_bound table.old.ring (times (part_at ps a) (part_at ps b)) ≡ false }
    ensures unchanged { table.new ≡ table.old }
{
    let a = table.value(alloc, a)?;
    let b = table.value(alloc, b)?;
    multiplied(alloc, &a, &b)
}
