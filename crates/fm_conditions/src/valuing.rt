// The values of operands.
ghost use Rattle.std.specs.Prelude.{IfOk, IsErrOf, false, true, ◌≡◌, ◌≤◌};
ghost use Rattle.fm_parts.specs.Shapes.{fits};
ghost use Rattle.fm_parts.specs.Values.{is_within_bound};
ghost use Rattle.fm_pres.specs.Kept.{IsValue};
ghost use Rattle.fm_pres.specs.Tables.{parts_in};
ghost use Rattle.fm_conditions.specs.Meanings.{CanBeFormed, IsOperand, operand_part};

use crate::Operand;
use crate::forming::{blocks, copied, flipped, joined, multiplied, twisted, unit, unit_column};
use crate::powers::power;
use fm_mat::Matrix;
use fm_poly::PolyError;
use fm_pres::Table;
use std::alloc::Global;
use std::rc::Rc;

/// The value of an operand, shared with the table where it is a part.
pub(crate) fn value_of(
    alloc: Global,
    table: &mut Table,
    a: &Operand,
) -> Result<Rc<Matrix>, PolyError>
    requires some { 1 ≤ table.old.ring.vars }
    requires few { table.old.ring.vars ≤ 8 }
    requires operand { IsOperand table.old.ring (parts_in table.old) a.now }
    requires formable { CanBeFormed table.old.ring (parts_in table.old) a.now }
    requires fits { fits (operand_part table.old.ring (parts_in table.old) a.now) ≡ true }
    ensures value { IfOk result (λ m. IsValue table.old.ring (operand_part table.old.ring (parts_in table.old) a.now) m.value) }
    ensures exponent { IsErrOf result PolyError.Exponent → is_within_bound table.old.ring (operand_part table.old.ring (parts_in table.old) a.now) ≡ false }
    ensures unchanged { table.new ≡ table.old }
{
    match a {
        Operand::Part(k) => table.value(alloc, *k),
        Operand::Given(m) => copied(alloc, m),
        Operand::Unit(n) => unit(alloc, table.ring(), *n),
        Operand::UnitColumn(n) => unit_column(alloc, table.ring(), *n),
        Operand::Blocks(k) => {
            let k = table.value(alloc, *k)?;
            blocks(alloc, &k)
        }
        Operand::Power { f, k, rows } => power(alloc, f, *k, *rows),
        Operand::Twist(a, e) => {
            let a = value_of(alloc, table, a)?;
            twisted(alloc, &a, *e)
        }
        Operand::Flip(a) => {
            let a = value_of(alloc, table, a)?;
            flipped(alloc, &a)
        }
        Operand::Beside(a, b) => {
            let a = value_of(alloc, table, a)?;
            let b = value_of(alloc, table, b)?;
            joined(alloc, &a, &b)
        }
        Operand::Times(a, b) => {
            let a = value_of(alloc, table, a)?;
            let b = value_of(alloc, table, b)?;
            multiplied(alloc, &a, &b)
        }
    }
}
