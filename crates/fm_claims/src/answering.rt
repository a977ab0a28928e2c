// Claims of conditions that are found, or not.
ghost use Rattle.std.specs.Prelude.{IfOk, IfSome, List, Option, Some, [], length, option_map, true, ◌++◌, ◌<◌, ◌∷◌, ◌^◌, ◌≡◌};
ghost use Rattle.fm_poly.specs.declared.ring.Ring.{Ring as RingValue};
ghost use Rattle.fm_report.specs.Parts.{Part};
ghost use Rattle.fm_report.specs.Sheets.{Block as SheetBlock, numbered};
ghost use Rattle.fm_parts.specs.Conditions.{Condition as ConditionValue};
ghost use Rattle.fm_parts.specs.Replays.{is_number};
ghost use Rattle.fm_parts.specs.Shapes.{columns_of};
ghost use Rattle.fm_judge.specs.Claims as claims;
ghost use Rattle.fm_judge.specs.Goals.{Goal as AimedGoal};
ghost use Rattle.fm_pres.specs.Tables.{part_at, parts_in};
ghost use Rattle.fm_conditions.specs.Meanings.{CanBeFormed, IsOperand, logs_of, operand_part};
ghost use Rattle.fm_conditions.specs.declared.kept_log.KeptLog.{KeptLog as KeptLogValue};
ghost use Rattle.fm_places.specs.declared.aim.Aim.{Aim as AimValue};
ghost use Rattle.fm_claims.specs.Following.{Follows};
ghost use Rattle.fm_claims.specs.Named.{Finds, FindsAll, IsFormableIf, Names, covered_by};
ghost use Rattle.fm_places.specs.Meanings.{IsPlace, place_of};

use crate::Claimed;
use crate::numbers::{excluding, part};
use crate::tools::{claim_all, claim_one, times};
use fm_conditions::{Condition, KeptLog, Operand};
use fm_lines::Excluded;
use fm_places::Place;
use fm_pres::Table;
use std::alloc::{AllocError, Global};

/// A claim of the condition, where one was found.
pub(crate) fn claim_if(
    alloc: Global,
    condition: Option<Condition>,
    next: Place,
) -> Result<Claimed, AllocError>
    ensures { (r : RingValue) (ps : List Part) (ls : List KeptLogValue) (aim : AimValue) (claimed : Option (List ConditionValue))
        → Finds r ps ls claimed condition → IsPlace ps next
        → IfOk result (Follows r ps ls aim (Some (record { conditions = claimed; next = place_of r ps aim next }))) }
{
    let Some(condition) = condition else {
        return Ok(Claimed::Reference);
    };
    claim_one(alloc, condition, next)
}

/// Part a is part k times part w, where k and w are there.
pub(crate) fn covered(
    alloc: Global,
    table: &Table,
    a: u32,
    k: Option<u32>,
    w: u64,
) -> Result<Option<Condition>, AllocError>
    requires few { length (parts_in table.now) < 2 ^ 32 }
    ensures { let ps = parts_in table.now in (r : RingValue) (ls : List KeptLogValue)
        → is_number ps a ≡ true → IfSome k (λ n. is_number ps n ≡ true)
        → IfOk result (Finds r ps ls (covered_by (part_at ps a) (option_map (part_at ps) k) (numbered ps w))) }
{
    let Some(k) = k else {
        return Ok(None);
    };
    let Some(w) = part(table, w) else {
        return Ok(None);
    };
    let image = times(alloc, Operand::Part(k), Operand::Part(w))?;
    Ok(Some(Condition::Equal(Operand::Part(a), image)))
}

/// A column of v, which has so many, lies outside of the image of a, where the log, the column and the members are there.
pub(crate) fn outside(
    alloc: Global,
    logs: &[KeptLog],
    a: Operand,
    v: Operand,
    columns: u32,
    shown: &Excluded,
) -> Result<Option<Condition>, AllocError>
    requires few_logs { length logs.now < 2 ^ 32 }
    ensures names { (r : RingValue) (g : AimedGoal) (b : SheetBlock) (ps : List Part)
        → columns_of (operand_part r ps v) ≡ columns → IsOperand r ps a → IsOperand r ps v
        → IfOk result (Names r ps logs.now (claims.excluded r g b ps (logs_of ps logs.now) 0 (operand_part r ps a) (operand_part r ps v)
        shown.now.log shown.now.column shown.now.by.items)) }
    ensures formable { (r : RingValue) (ps : List Part) → CanBeFormed r ps a → CanBeFormed r ps v → IfOk result (IsFormableIf r ps) }
{
    let Some(shown) = excluding(alloc, logs, columns, shown.log, shown.column, &shown.by)? else {
        return Ok(None);
    };
    Ok(Some(Condition::Outside {
        log: shown.log,
        e: 0,
        a,
        v,
        column: shown.column,
        by: shown.by,
    }))
}

/// The numbers with one more.
pub(crate) fn with_number(numbers: Vec<u32>, k: u32) -> Result<Vec<u32>, AllocError>
    ensures { IfOk result (λ v. v.items ≡ numbers.items ++ k ∷ []) }
{
    let mut numbers = numbers;
    numbers.push(k)?;
    Ok(numbers)
}

/// A claim of the conditions, where they were found.
pub(crate) fn claim_all_if(conditions: Option<Vec<Condition>>, next: Place) -> Claimed
    ensures { (r : RingValue) (ps : List Part) (ls : List KeptLogValue) (aim : AimValue) (claimed : Option (List ConditionValue))
        → FindsAll r ps ls claimed conditions → IsPlace ps next
        → Follows r ps ls aim (Some (record { conditions = claimed; next = place_of r ps aim next })) result }
{
    let Some(conditions) = conditions else {
        return Claimed::Reference;
    };
    claim_all(conditions, next)
}

/// Two conditions.
pub(crate) fn pair(
    alloc: Global,
    first: Condition,
    second: Condition,
) -> Result<Vec<Condition>, AllocError>
    ensures { IfOk result (λ cs. cs.items ≡ first ∷ second ∷ []) }
{
    let mut conditions = Vec::with_capacity(alloc, 2)?;
    conditions.push(first)?;
    conditions.push(second)?;
    Ok(conditions)
}

/// Three conditions.
pub(crate) fn triple(
    alloc: Global,
    first: Condition,
    second: Condition,
    third: Condition,
) -> Result<Vec<Condition>, AllocError>
    ensures { IfOk result (λ cs. cs.items ≡ first ∷ second ∷ third ∷ []) }
{
    let mut conditions = pair(alloc, first, second)?;
    conditions.push(third)?;
    Ok(conditions)
}
