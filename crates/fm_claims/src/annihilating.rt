// The line on the annihilator of a root.
ghost use Rattle.std.specs.Prelude.{IfOk, IfSome, length, option_map, true, ◌<◌, ◌^◌, ◌≡◌};
ghost use Rattle.fm_poly.specs.declared.ring.Ring.{Ring as RingValue};
ghost use Rattle.fm_problem.specs.declared.problem.Problem.{Problem as ProblemValue};
ghost use Rattle.fm_report.specs.Sheets.{Block as SheetBlock, numbered};
ghost use Rattle.fm_vec.specs.Components.{AreOver};
ghost use Rattle.fm_parts.specs.Replays.{is_number};
ghost use Rattle.fm_judge.specs.Goals.{Goal as AimedGoal};
ghost use Rattle.fm_pres.specs.Tables.{part_at, parts_in};
ghost use Rattle.fm_conditions.specs.Meanings.{logs_of};
ghost use Rattle.fm_places.specs.declared.place.Place.TheVariants as places;
ghost use Rattle.fm_claims.specs.Following.{FollowsIn};
ghost use Rattle.fm_claims.specs.Named.{FindsAll, annihilated_by};
ghost use Rattle.fm_pres.specs.Blocks.{AreBlockParts};
ghost use Rattle.fm_places.specs.Meanings.{IsAim, support_of};

use crate::Claimed;
use crate::answering::{claim_all_if, triple};
use crate::numbers::{generating, nth, part};
use crate::problems::copies;
use crate::tools::rows;
use fm_conditions::{Condition, KeptLog, Operand};
use fm_lines::{Generated, Row};
use fm_places::{Aim, Goal, Place};
use fm_poly::Poly;
use fm_pres::{Block, Table};
use std::alloc::{AllocError, Global};

/// `annihilator`: the polynomials that send everything into K_t.
pub(crate) fn annihilator(
    alloc: Global,
    table: &Table,
    logs: &[KeptLog],
    goal: &Goal,
    block: &Block,
    t: u64,
    row: &Row<'_>,
) -> Result<Claimed, AllocError>
    requires few { length (parts_in table.now) < 2 ^ 32 }
    requires few_logs { length logs.now < 2 ^ 32 }
    requires block { AreBlockParts (parts_in table.now) block.now }
    ensures { (q : ProblemValue) → IsAim q (parts_in table.now) goal.now.aim
        → IfOk result (FollowsIn q (parts_in table.now) logs.now goal.now block.now (places.Annihilator t) row.now) }
{
    let Row::Annihilator { part: k, shown } = row else {
        return Ok(Claimed::Form);
    };
    let conditions = annihilates(
        alloc,
        table,
        logs,
        &goal.aim,
        nth(&block.kernels, t),
        *k,
        shown,
    )?;
    Ok(claim_all_if(conditions, Place::End))
}

// Part `kernel` can be formed, part k generates what annihilates everything modulo its image, and the entries of k are the ideal of the support,
// where the parts and what is named are there.
fn annihilates(
    alloc: Global,
    table: &Table,
    logs: &[KeptLog],
    aim: &Aim,
    kernel: Option<u32>,
    k: u64,
    shown: &Generated,
) -> Result<Option<Vec<Condition>>, AllocError>
    requires few { length (parts_in table.now) < 2 ^ 32 }
    requires few_logs { length logs.now < 2 ^ 32 }
    requires kernel { IfSome kernel (λ n. is_number (parts_in table.now) n ≡ true) }
    ensures { let ps = parts_in table.now in (r : RingValue) (g : AimedGoal) (b : SheetBlock) → AreOver r (support_of aim.now)
        → IfOk result (FindsAll r ps logs.now (annihilated_by r g b ps (logs_of ps logs.now)
        (support_of aim.now) (option_map (part_at ps) kernel) (numbered ps k) shown.now.log shown.now.x shown.now.w)) }
{
    let Some(kernel) = kernel else {
        return Ok(None);
    };
    let Some(k) = part(table, k) else {
        return Ok(None);
    };
    let Some(shown) = generating(table, logs, shown) else {
        return Ok(None);
    };
    let polynomials = supporting(alloc, aim)?;
    let formed = Condition::Equal(Operand::Part(kernel), Operand::Part(kernel));
    let sent = Condition::Preimage {
        log: shown.log,
        a: Operand::UnitColumn(rows(table, kernel)),
        b: Operand::Blocks(kernel),
        c: k,
        x: shown.x,
        w: shown.w,
    };
    let lists = Condition::Lists {
        polynomials,
        part: k,
    };
    let conditions = triple(alloc, formed, sent, lists)?;
    Ok(Some(conditions))
}

// Copies of the generators of the support; none, where the aim is another.
fn supporting(alloc: Global, aim: &Aim) -> Result<Vec<Poly>, AllocError>
    ensures { IfOk result (λ fs. fs.items ≡ support_of aim.now) }
{
    match aim {
        Aim::Support { ideal } => copies(alloc, ideal),
        _ => Ok(Vec::new(alloc)),
    }
}
