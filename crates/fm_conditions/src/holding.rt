// Whether conditions hold.
ghost use Rattle.std.specs.Prelude.{nat_eq, true, ◌≡◌, ◌≤◌};
ghost use Rattle.fm_parts.specs.Conditions as conditions;
ghost use Rattle.fm_parts.specs.Conditions.{equal};
ghost use Rattle.fm_parts.specs.Replays as reasons;
ghost use Rattle.fm_parts.specs.Replays.{needs};
ghost use Rattle.fm_judge.specs.Claims.{factored_part};
ghost use Rattle.fm_poly.specs.declared.ring.Ring.{Ring as RingValue};
ghost use Rattle.fm_pres.specs.Tables.{parts_in};
ghost use Rattle.fm_conditions.specs.Meanings.{AreKeptLogs, CanBeFormed, IsCondition, IsFormable, IsOperand, condition_of, logs_of, operand_part};
ghost use Rattle.fm_conditions.specs.Reasons.{Judges};

use crate::evaluating::{evaluated, part_value, same};
use crate::excluding::lies_outside;
use crate::generating::{generates_kernel, generates_preimage};
use crate::listing::are_listed;
use crate::powers::factored;
use crate::shaping::numbered;
use crate::{Condition, KeptLog, Operand, Refused, Why};
use fm_poly::{Poly, PolyError};
use fm_pres::Table;
use std::alloc::Global;

/// Whether a condition whose shapes fit holds, or why not.
pub(crate) fn holds(
    alloc: Global,
    table: &mut Table,
    logs: &[KeptLog],
    c: &Condition,
) -> Result<(), Refused>
    requires some { 1 ≤ table.old.ring.vars }
    requires few { table.old.ring.vars ≤ 8 }
    requires condition { IsCondition table.old.ring (parts_in table.old) logs.now c.now }
    requires formable { IsFormable table.old.ring (parts_in table.old) c.now }
    requires logs { AreKeptLogs table.old.ring (parts_in table.old) logs.now }
    requires fits { let ps = parts_in table.old in conditions.shapes_fit (condition_of table.old.ring ps (logs_of ps logs.now) c.now) ≡ true }
    ensures judges { let r = table.old.ring in let ps = parts_in table.old in
        Judges (λ _. tt) result (conditions.holds r (condition_of r ps (logs_of ps logs.now) c.now)) }
    ensures unchanged { table.new ≡ table.old }
{
    match c {
        Condition::Equal(a, b) => are_equal(alloc, table, a, b),
        Condition::Powers { f, k } => can_be_formed(alloc, f, *k),
        Condition::Follows { .. } => Ok(()),
        Condition::Kernel { log, a, c, x, w } => {
            generates_kernel(alloc, table, numbered(logs, *log), a, *c, *x, *w)
        }
        Condition::Preimage { log, a, b, c, x, w } => {
            generates_preimage(alloc, table, numbered(logs, *log), a, b, *c, *x, *w)
        }
        Condition::Outside {
            log,
            e,
            a,
            v,
            column,
            by,
        } => lies_outside(alloc, table, numbered(logs, *log), *e, a, v, *column, by),
        Condition::Lists { polynomials, part } => are_listed(alloc, table, polynomials, *part),
        Condition::Agrees { told, found } => agrees(*told, *found),
        Condition::Never => Err(Refused::Bad(Why::Value)),
    }
}

fn are_equal(alloc: Global, table: &mut Table, a: &Operand, b: &Operand) -> Result<(), Refused>
    requires some { 1 ≤ table.old.ring.vars }
    requires few { table.old.ring.vars ≤ 8 }
    requires first { IsOperand table.old.ring (parts_in table.old) a.now }
    requires second { IsOperand table.old.ring (parts_in table.old) b.now }
    requires first_formable { CanBeFormed table.old.ring (parts_in table.old) a.now }
    requires second_formable { CanBeFormed table.old.ring (parts_in table.old) b.now }
    requires fits { let r = table.old.ring in let ps = parts_in table.old in conditions.shapes_fit (equal (operand_part r ps a.now) (operand_part r ps b.now)) ≡ true }
    ensures judges { let r = table.old.ring in let ps = parts_in table.old in
        Judges (λ _. tt) result (conditions.holds r (equal (operand_part r ps a.now) (operand_part r ps b.now))) }
    ensures unchanged { table.new ≡ table.old }
{
    let a = match evaluated(alloc, table, a) {
        Ok(a) => a,
        Err(refused) => return Err(refused),
    };
    let b = match evaluated(alloc, table, b) {
        Ok(b) => b,
        Err(refused) => return Err(refused),
    };
    same(alloc, &a, &b, Why::Value)
}

// Whether f^k can be formed by k products.
fn can_be_formed(alloc: Global, f: &Poly, k: u64) -> Result<(), Refused>
    requires some { 1 ≤ f.now.ring.vars }
    requires few { f.now.ring.vars ≤ 8 }
    ensures { (r : RingValue) → f.now.ring ≡ r → Judges (λ _. tt) result (conditions.holds r (equal (factored_part r f.now k) (factored_part r f.now k))) }
{
    match factored(alloc, f, k) {
        Ok(_) => Ok(()),
        Err(PolyError::Exponent) => Err(Refused::Bad(Why::Exponents)),
        Err(PolyError::Memory) => Err(Refused::Memory),
    }
}

fn agrees(told: u64, found: u64) -> Result<(), Refused>
    ensures { Judges (λ _. tt) result (needs (nat_eq told found) reasons.Value) }
{
    if told == found {
        Ok(())
    } else {
        Err(Refused::Bad(Why::Value))
    }
}
