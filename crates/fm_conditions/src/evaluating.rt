// Values as conditions ask for them.
ghost use Rattle.std.specs.Prelude.{IfOk, IsErrOf, false, true, ◌≡◌, ◌≤◌};
ghost use Rattle.fm_mat.specs.Matrices.{matrix_meaning};
ghost use Rattle.fm_parts.specs.Conditions as conditions;
ghost use Rattle.fm_parts.specs.Replays.{is_number, needs};
ghost use Rattle.fm_parts.specs.Shapes.{fits};
ghost use Rattle.fm_parts.specs.Values as values;
ghost use Rattle.fm_parts.specs.Values.{is_within_bound};
ghost use Rattle.fm_poly.specs.declared.ring.Ring.{Ring as RingValue};
ghost use Rattle.fm_pres.specs.Kept.{IsValue};
ghost use Rattle.fm_pres.specs.Tables.{part_at, parts_in};
ghost use Rattle.fm_report.specs.Parts.{Part};
ghost use Rattle.fm_conditions.specs.Meanings.{CanBeFormed, IsOperand, operand_part};
ghost use Rattle.fm_conditions.specs.Reasons.{Judges, reason_of};

use crate::comparing::same_matrix;
use crate::valuing::value_of;
use crate::{Operand, Refused, Why};
use fm_mat::Matrix;
use fm_poly::PolyError;
use fm_pres::Table;
use std::alloc::Global;
use std::rc::Rc;

/// A value, or that it passes the bound.
pub(crate) fn told(value: Result<Rc<Matrix>, PolyError>) -> Result<Rc<Matrix>, Refused>
    ensures same { IfOk result (λ m. value ≡ Ok m) }
    ensures judges { (r : RingValue) (a : Part) → IfOk value (λ m. IsValue r a m.value) → (IsErrOf value PolyError.Exponent → is_within_bound r a ≡ false)
        → Judges (λ m. matrix_meaning r m.value) result (conditions.evaluated r a) }
{
    match value {
        Ok(value) => Ok(value),
        Err(PolyError::Exponent) => Err(Refused::Bad(Why::Exponents)),
        Err(PolyError::Memory) => Err(Refused::Memory),
    }
}

/// The value of an operand.
pub(crate) fn evaluated(
    alloc: Global,
    table: &mut Table,
    a: &Operand,
) -> Result<Rc<Matrix>, Refused>
    requires some { 1 ≤ table.old.ring.vars }
    requires few { table.old.ring.vars ≤ 8 }
    requires operand { IsOperand table.old.ring (parts_in table.old) a.now }
    requires formable { CanBeFormed table.old.ring (parts_in table.old) a.now }
    requires fits { fits (operand_part table.old.ring (parts_in table.old) a.now) ≡ true }
    ensures value { IfOk result (λ m. IsValue table.old.ring (operand_part table.old.ring (parts_in table.old) a.now) m.value) }
    ensures judges { let r = table.old.ring in Judges (λ m. matrix_meaning r m.value) result (conditions.evaluated r (operand_part r (parts_in table.old) a.now)) }
    ensures unchanged { table.new ≡ table.old }
{
    told(value_of(alloc, table, a))
}

/// The value of a part.
pub(crate) fn part_value(alloc: Global, table: &mut Table, k: u32) -> Result<Rc<Matrix>, Refused>
    requires { is_number (parts_in table.old) k ≡ true }
    ensures value { IfOk result (λ m. IsValue table.old.ring (part_at (parts_in table.old) k) m.value) }
    ensures judges { let r = table.old.ring in Judges (λ m. matrix_meaning r m.value) result (conditions.evaluated r (part_at (parts_in table.old) k)) }
    ensures unchanged { table.new ≡ table.old }
{
    told(table.value(alloc, k))
}

/// Whether the matrices are equal; the reason is what is told where they aren't.
pub(crate) fn same(alloc: Global, a: &Matrix, b: &Matrix, why: Why) -> Result<(), Refused>
    requires { b.now.ring ≡ a.now.ring }
    ensures { (r : RingValue) → a.now.ring ≡ r
        → Judges (λ _. tt) result (needs (values.same_matrix r (matrix_meaning r a.now) (matrix_meaning r b.now)) (reason_of why)) }
{
    if same_matrix(alloc, a, b)? {
        Ok(())
    } else {
        Err(Refused::Bad(why))
    }
}
