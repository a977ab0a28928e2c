// Operands of conditions, and the claims that conditions make.
ghost use Rattle.std.specs.Prelude.{IfOk, IfSome, List, OnOk, Some, [], option_map, true, ◌++◌, ◌∷◌, ◌≡◌};
ghost use Rattle.fm_poly.specs.declared.ring.Ring.{Ring as RingValue};
ghost use Rattle.fm_vec.specs.Components.{AreOver};
ghost use Rattle.fm_report.specs.Parts.{Part, beside as beside_of, flip, times as times_of, twist};
ghost use Rattle.fm_parts.specs.Shapes.{columns_of, rows_of};
ghost use Rattle.fm_parts.specs.Replays.{are_numbers, is_number};
ghost use Rattle.fm_judge.specs.Claims as claims;
ghost use Rattle.fm_pres.specs.Tables.{part_at, parts_in};
ghost use Rattle.fm_conditions.specs.Meanings.{AreConditions, AreFormable, CanBeFormed, IsCondition, IsFormable, IsOperand, condition_of, logs_of, operand_part};
ghost use Rattle.fm_conditions.specs.declared.kept_log.KeptLog.{KeptLog as KeptLogValue};
ghost use Rattle.fm_places.specs.declared.aim.Aim.{Aim as AimValue};
ghost use Rattle.fm_claims.specs.Following.{Follows};
ghost use Rattle.fm_pres.specs.Blocks.{parts_at};
ghost use Rattle.fm_places.specs.Meanings.{IsPlace, place_of};
ghost use Rattle.fm_claims.specs.Views.{conditions_of};

use crate::numbers::nth;
use crate::{Claim, Claimed};
use fm_conditions::{Condition, Operand};
use fm_mat::{Column, Matrix};
use fm_places::Place;
use fm_poly::{Poly, Ring};
use fm_pres::Table;
use std::alloc::{AllocError, Global};

/// The Frobenius twist by p^e.
pub(crate) fn twisted(alloc: Global, a: Operand, e: u8) -> Result<Operand, AllocError>
    ensures part { (r : RingValue) (ps : List Part) → IfOk result (λ o. operand_part r ps o ≡ twist (operand_part r ps a) e) }
    ensures there { (r : RingValue) (ps : List Part) → IsOperand r ps a → IfOk result (IsOperand r ps) }
    ensures formable { (r : RingValue) (ps : List Part) → CanBeFormed r ps a → IfOk result (CanBeFormed r ps) }
{
    Ok(Operand::Twist(Box::new(alloc, a)?, e))
}

/// The transpose.
pub(crate) fn flipped(alloc: Global, a: Operand) -> Result<Operand, AllocError>
    ensures part { (r : RingValue) (ps : List Part) → IfOk result (λ o. operand_part r ps o ≡ flip (operand_part r ps a)) }
    ensures there { (r : RingValue) (ps : List Part) → IsOperand r ps a → IfOk result (IsOperand r ps) }
    ensures formable { (r : RingValue) (ps : List Part) → CanBeFormed r ps a → IfOk result (CanBeFormed r ps) }
{
    Ok(Operand::Flip(Box::new(alloc, a)?))
}

/// The product a * b.
pub(crate) fn times(alloc: Global, a: Operand, b: Operand) -> Result<Operand, AllocError>
    ensures part { (r : RingValue) (ps : List Part) → IfOk result (λ o. operand_part r ps o ≡ times_of (operand_part r ps a) (operand_part r ps b)) }
    ensures there { (r : RingValue) (ps : List Part) → IsOperand r ps a → IsOperand r ps b → IfOk result (IsOperand r ps) }
    ensures formable { (r : RingValue) (ps : List Part) → CanBeFormed r ps a → CanBeFormed r ps b → IfOk result (CanBeFormed r ps) }
{
    let a = Box::new(alloc, a)?;
    let b = Box::new(alloc, b)?;
    Ok(Operand::Times(a, b))
}

/// [a | b].
pub(crate) fn beside(alloc: Global, a: Operand, b: Operand) -> Result<Operand, AllocError>
    ensures part { (r : RingValue) (ps : List Part) → IfOk result (λ o. operand_part r ps o ≡ beside_of (operand_part r ps a) (operand_part r ps b)) }
    ensures there { (r : RingValue) (ps : List Part) → IsOperand r ps a → IsOperand r ps b → IfOk result (IsOperand r ps) }
    ensures formable { (r : RingValue) (ps : List Part) → CanBeFormed r ps a → CanBeFormed r ps b → IfOk result (CanBeFormed r ps) }
{
    let a = Box::new(alloc, a)?;
    let b = Box::new(alloc, b)?;
    Ok(Operand::Beside(a, b))
}

/// A matrix with these entries as its one column. More than 2^32 - 1 entries answer as where memory is short.
pub(crate) fn column(alloc: Global, ring: Ring, entries: &[Poly]) -> Result<Operand, AllocError>
    requires { AreOver ring entries.now }
    ensures part { (r : RingValue) (ps : List Part) → IfOk result (λ o. operand_part r ps o ≡ claims.column_part entries.now) }
    ensures there { (ps : List Part) → IfOk result (IsOperand ring ps) }
    ensures formable { (r : RingValue) (ps : List Part) → IfOk result (CanBeFormed r ps) }
{
    if entries.len() > u32::MAX as usize {
        return Err(AllocError);
    }
    let column = Column::copy_of(alloc, entries)?;
    let mut columns = Vec::new(alloc);
    columns.push(column)?;
    Ok(Operand::Given(Matrix::new(ring, entries.len() as u32, columns)))
}

/// A matrix with these entries as its one row. More than 2^32 - 1 entries answer as where memory is short.
pub(crate) fn row(alloc: Global, ring: Ring, entries: &[Poly]) -> Result<Operand, AllocError>
    requires { AreOver ring entries.now }
    ensures part { (r : RingValue) (ps : List Part) → IfOk result (λ o. operand_part r ps o ≡ claims.row_part entries.now) }
    ensures there { (ps : List Part) → IfOk result (IsOperand ring ps) }
    ensures formable { (r : RingValue) (ps : List Part) → IfOk result (CanBeFormed r ps) }
{
    let column = column(alloc, ring, entries)?;
    flipped(alloc, column)
}

/// The map from the cochains of degree - 1, where the differentials reach so far. That of degree 0 has no columns.
pub(crate) fn codifferential(
    alloc: Global,
    ring: Ring,
    differentials: &[u32],
    degree: u8,
) -> Result<Option<Operand>, AllocError>
    ensures part { (ps : List Part)
        → IfOk result (λ o. claims.codifferential ring (parts_at ps differentials.now) degree ≡ option_map (operand_part ring ps) o) }
    ensures there { (ps : List Part) → are_numbers ps differentials.now ≡ true → IfOk result (λ o. IfSome o (IsOperand ring ps)) }
    ensures formable { (r : RingValue) (ps : List Part) → IfOk result (λ o. IfSome o (CanBeFormed r ps)) }
{
    if degree == 0 {
        let none = Matrix::new(ring, 1, Vec::new(alloc));
        return Ok(Some(Operand::Given(none)));
    }
    let Some(d) = nth(differentials, u64::from(degree) - 1) else {
        return Ok(None);
    };
    let d = flipped(alloc, Operand::Part(d))?;
    Ok(Some(d))
}

/// The number of rows of part k.
pub(crate) fn rows(table: &Table, k: u32) -> u32
    requires { is_number (parts_in table.now) k ≡ true }
    ensures { result ≡ rows_of (part_at (parts_in table.now) k) }
{
    let (rows, _columns) = table.shape(k);
    rows
}

/// The number of columns of part k.
pub(crate) fn columns(table: &Table, k: u32) -> u32
    requires { is_number (parts_in table.now) k ≡ true }
    ensures { result ≡ columns_of (part_at (parts_in table.now) k) }
{
    let (_rows, columns) = table.shape(k);
    columns
}

/// A claim of these conditions.
pub(crate) fn claim_all(conditions: Vec<Condition>, next: Place) -> Claimed
    ensures { (r : RingValue) (ps : List Part) (ls : List KeptLogValue) (aim : AimValue) → AreConditions r ps ls conditions.items
        → AreFormable r ps (logs_of ps ls) conditions.items → IsPlace ps next
        → Follows r ps ls aim (Some (record { conditions = Some (conditions_of r ps (logs_of ps ls) conditions.items); next = place_of r ps aim next })) result }
{
    Claimed::Claim(Claim { conditions, next })
}

/// A claim of one condition.
pub(crate) fn claim_one(
    alloc: Global,
    condition: Condition,
    next: Place,
) -> Result<Claimed, AllocError>
    ensures { (r : RingValue) (ps : List Part) (ls : List KeptLogValue) (aim : AimValue) → IsCondition r ps ls condition
        → IsFormable r ps condition → IsPlace ps next
        → IfOk result (Follows r ps ls aim
        (Some (record { conditions = Some (condition_of r ps (logs_of ps ls) condition ∷ []); next = place_of r ps aim next }))) }
{
    claim_agreeing(alloc, condition, None, 0, next)
}

/// A claim of a condition, and that a number of the answer is the one that is found, where the answer tells it.
pub(crate) fn claim_agreeing(
    alloc: Global,
    condition: Condition,
    told: Option<u64>,
    found: u64,
    next: Place,
) -> Result<Claimed, AllocError>
    ensures { (r : RingValue) (ps : List Part) (ls : List KeptLogValue) (aim : AimValue) → IsCondition r ps ls condition
        → IsFormable r ps condition → IsPlace ps next
        → IfOk result (Follows r ps ls aim (Some (record {
          conditions = Some (condition_of r ps (logs_of ps ls) condition ∷ claims.agreeing told found);
          next = place_of r ps aim next;
        }))) }
{
    let conditions = with_agreeing(alloc, condition, told, found)?;
    Ok(claim_all(conditions, next))
}

/// The condition, and that a number of the answer is the one that is found, where the answer tells it.
pub(crate) fn with_agreeing(
    alloc: Global,
    condition: Condition,
    told: Option<u64>,
    found: u64,
) -> Result<Vec<Condition>, AllocError>
    ensures same { (r : RingValue) (ps : List Part) (ls : List KeptLogValue) → IfOk result (λ cs.
        conditions_of r ps (logs_of ps ls) cs.items ≡ condition_of r ps (logs_of ps ls) condition ∷ claims.agreeing told found) }
    ensures testable { (r : RingValue) (ps : List Part) (ls : List KeptLogValue) → IsCondition r ps ls condition
        → IfOk result (λ cs. AreConditions r ps ls cs.items) }
    ensures formable { (r : RingValue) (ps : List Part) (ls : List KeptLogValue) → IsFormable r ps condition
        → IfOk result (λ cs. AreFormable r ps (logs_of ps ls) cs.items) }
{
    let mut conditions = Vec::new(alloc);
    conditions.push(condition)?;
    push_agreeing(told, found, &mut conditions)?;
    Ok(conditions)
}

/// Appends that a number of the answer is the one that is found, where the answer tells it.
pub(crate) fn push_agreeing(
    told: Option<u64>,
    found: u64,
    out: &mut Vec<Condition>,
) -> Result<(), AllocError>
    ensures same { (r : RingValue) (ps : List Part) (ls : List KeptLogValue) → OnOk result (
        conditions_of r ps (logs_of ps ls) out.new.items ≡ conditions_of r ps (logs_of ps ls) out.old.items ++ claims.agreeing told found) }
    ensures testable { (r : RingValue) (ps : List Part) (ls : List KeptLogValue) → AreConditions r ps ls out.old.items
        → OnOk result (AreConditions r ps ls out.new.items) }
    ensures formable { (r : RingValue) (ps : List Part) (ls : List KeptLogValue) → AreFormable r ps (logs_of ps ls) out.old.items
        → OnOk result (AreFormable r ps (logs_of ps ls) out.new.items) }
{
    let Some(told) = told else {
        return Ok(());
    };
    out.push(Condition::Agrees { told, found })?;
    Ok(())
}
