// Rows in certificates.
ghost use Rattle.std.specs.Prelude.{IfOk, List, None, OnOk, false, true, option_map, ◌≡◌};
ghost use Rattle.fm_places.specs.Meanings.{AreIdealsOver, IsGoal, IsPlace, goal_of, place_of};
ghost use Rattle.fm_claims.specs.Views.{IsClaim, IsSound, claim_on};
ghost use Rattle.fm_conditions.specs.Meanings.{logs_of};
ghost use Rattle.fm_judge.specs.Judging.{State, block_at, judged_line};
ghost use Rattle.fm_lines.specs.Rows.{IsFormOver, IsRowOver, part_line, row_line};
ghost use Rattle.fm_lines.specs.declared.row.Row.TheVariants as rows;
ghost use Rattle.fm_pres.specs.Blocks.{AreBlockParts, block_of};
ghost use Rattle.fm_problem.specs.Problems.{IsBounded};
ghost use Rattle.fm_report.specs.Parts.{Part};
ghost use Rattle.fm_asked.specs.Beginnings.{IsBlockIf};
ghost use Rattle.fm_asked.specs.States.{IsAsked};
ghost use Rattle.fm_check.specs.Standings.{IsCertificate, Leads, Says, StandsIn, certificate_on, is_end, is_placed, parts_of};

use crate::block_rows::on_datum;
use crate::certificate::Certificate;
use crate::log_rows::on_log;
use fm_asked::{Asked, log_row, name_row, part_row};
use fm_claims::{Claimed, claim};
use fm_conditions::{Refused, Why, judge};
use fm_lines::{PartForm, Row};
use fm_places::{Goal, Place};
use fm_pres::Block;
use fm_problem::Problem;
use std::alloc::{AllocError, Global};
use std::mem;

/// A row under an answer, in a report of this version, before the end of its certificate: in a log, or in a place.
pub(crate) fn row_under_answer(
    alloc: Global,
    version: u64,
    problem: &Problem,
    asked: &mut Asked,
    certificate: &mut Certificate,
    row: Row<'_>,
) -> Result<(), Refused>
    requires bounded { IsBounded problem.now }
    requires ideals { AreIdealsOver problem.now.ring problem.now.ideals }
    requires asked { IsAsked problem.now.ring asked.old }
    requires certificate { IsCertificate problem.now (parts_of asked.old) certificate.old }
    requires place { is_end certificate.old.place ≡ false }
    requires over { IsRowOver problem.now.ring row }
    ensures leads { (s : State) → Says problem.now asked.old s → s.version ≡ version → StandsIn problem.now (parts_of asked.old) certificate.old s.stage
        → Leads problem.now asked.new certificate.new s result (judged_line s (row_line row.entry)) }
    ensures asked { OnOk result (IsAsked problem.now.ring asked.new) }
    ensures certificate { OnOk result (IsCertificate problem.now (parts_of asked.new) certificate.new) }
{
    let is_open = certificate.log.is_some();
    if is_open {
        return on_log(alloc, version, asked, certificate, &row);
    }
    certificate_row(alloc, problem, asked, certificate, row)
}

/// A row in a certificate, outside of its logs.
fn certificate_row(
    alloc: Global,
    problem: &Problem,
    asked: &mut Asked,
    certificate: &mut Certificate,
    row: Row<'_>,
) -> Result<(), Refused>
    requires bounded { IsBounded problem.now }
    requires ideals { AreIdealsOver problem.now.ring problem.now.ideals }
    requires asked { IsAsked problem.now.ring asked.old }
    requires certificate { IsCertificate problem.now (parts_of asked.old) certificate.old }
    requires place { is_end certificate.old.place ≡ false }
    requires log { certificate.old.log ≡ None }
    requires over { IsRowOver problem.now.ring row }
    ensures leads { (s : State) → Says problem.now asked.old s → StandsIn problem.now (parts_of asked.old) certificate.old s.stage
        → Leads problem.now asked.new certificate.new s result (judged_line s (row_line row.entry)) }
    ensures asked { OnOk result (IsAsked problem.now.ring asked.new) }
    ensures certificate { OnOk result (IsCertificate problem.now (parts_of asked.new) certificate.new) }
{
    match row {
        Row::Part { number, form } => on_part(alloc, problem, asked, certificate, number, form),
        Row::Log { number, part } => begin_log(alloc, problem, asked, certificate, number, part),
        Row::Datum { name, degree } => on_datum(alloc, problem, asked, certificate, name, degree),
        Row::Ended(_) => Err(Refused::Bad(Why::Form)),
        Row::Done { .. } => Err(Refused::Bad(Why::Form)),
        row => place_row(alloc, problem, asked, certificate, &row),
    }
}

/// A row that adds a part.
fn on_part(
    alloc: Global,
    problem: &Problem,
    asked: &mut Asked,
    certificate: &Certificate,
    number: u64,
    form: PartForm,
) -> Result<(), Refused>
    requires asked { IsAsked problem.now.ring asked.old }
    requires certificate { IsCertificate problem.now (parts_of asked.old) certificate.now }
    requires place { is_end certificate.now.place ≡ false }
    requires log { certificate.now.log ≡ None }
    requires over { IsFormOver problem.now.ring form }
    ensures leads { let g = goal_of problem.now (parts_of asked.old) certificate.now.goal in let p = place_of problem.now.ring (parts_of asked.old) certificate.now.goal.aim certificate.now.place in
        (s : State) → Says problem.now asked.old s → Leads problem.now asked.new certificate.now s result (certificate_on s g p (part_line number form)) }
    ensures asked { OnOk result (IsAsked problem.now.ring asked.new) }
    ensures certificate { OnOk result (IsCertificate problem.now (parts_of asked.new) certificate.now) }
{
    part_row(alloc, problem.ring, asked, number, form)
}

/// A row that begins a log.
fn begin_log(
    alloc: Global,
    problem: &Problem,
    asked: &mut Asked,
    certificate: &mut Certificate,
    number: u64,
    part: u64,
) -> Result<(), Refused>
    requires bounded { IsBounded problem.now }
    requires asked { IsAsked problem.now.ring asked.old }
    requires certificate { IsCertificate problem.now (parts_of asked.old) certificate.old }
    requires place { is_end certificate.old.place ≡ false }
    ensures leads { let g = goal_of problem.now (parts_of asked.old) certificate.old.goal in let p = place_of problem.now.ring (parts_of asked.old) certificate.old.goal.aim certificate.old.place in
        (s : State) → Says problem.now asked.old s → Leads problem.now asked.new certificate.new s result (certificate_on s g p (row_line (rows.Log number part))) }
    ensures asked { OnOk result (IsAsked problem.now.ring asked.new) }
    ensures certificate { OnOk result (IsCertificate problem.now (parts_of asked.new) certificate.new) }
{
    let log = log_row(alloc, problem.ring, asked, number, part)?;
    certificate.log = Some(log);
    Ok(())
}

/// A row of a place: its form, then what it names, then its conditions on what has been named with it. Whether it has a form doesn't rest on what it names.
fn place_row(
    alloc: Global,
    problem: &Problem,
    asked: &mut Asked,
    certificate: &mut Certificate,
    row: &Row<'_>,
) -> Result<(), Refused>
    requires bounded { IsBounded problem.now }
    requires asked { IsAsked problem.now.ring asked.old }
    requires certificate { IsCertificate problem.now (parts_of asked.old) certificate.old }
    requires log { certificate.old.log ≡ None }
    requires placed { is_placed row.now ≡ true }
    ensures leads { let g = goal_of problem.now (parts_of asked.old) certificate.old.goal in let p = place_of problem.now.ring (parts_of asked.old) certificate.old.goal.aim certificate.old.place in
        (s : State) → Says problem.now asked.old s → Leads problem.now asked.new certificate.new s result (certificate_on s g p (row_line row.now)) }
    ensures asked { OnOk result (IsAsked problem.now.ring asked.new) }
    ensures certificate { OnOk result (IsCertificate problem.now (parts_of asked.new) certificate.new) }
{
    let said = name_row(asked, row)?;
    let place = mem::replace(&mut certificate.place, Place::End);
    match claim_at(alloc, problem, asked, &certificate.goal, place, row)? {
        Claimed::Form => Err(Refused::Bad(Why::Form)),
        Claimed::Reference => Err(Refused::Bad(Why::Reference)),
        Claimed::Claim(claim) => {
            if !said {
                return Err(Refused::Bad(Why::Reference));
            }
            certificate.place = claim.next;
            judge(alloc, &mut asked.table, &asked.logs, &claim.conditions)
        }
    }
}

/// What a row claims in its place; before `datum` the block at hand has no matrices.
fn claim_at(
    alloc: Global,
    problem: &Problem,
    asked: &Asked,
    goal: &Goal,
    place: Place,
    row: &Row<'_>,
) -> Result<Claimed, AllocError>
    requires goal { IsGoal problem.now (parts_of asked.now) goal.now }
    requires block { IsBlockIf (parts_of asked.now) asked.now.block }
    requires place { IsPlace (parts_of asked.now) place }
    ensures claim { let r = problem.now.ring in let ps = parts_of asked.now in let ls = logs_of ps asked.now.logs.items in IfOk result (λ c. IsClaim r ps ls goal.now.aim c
        (claim_on r (goal_of problem.now ps goal.now) (block_at (option_map (block_of ps) asked.now.block)) ps ls (place_of r ps goal.now.aim place) (row_line row.now))) }
    ensures sound { IfOk result (IsSound problem.now.ring (parts_of asked.now) asked.now.logs.items) }
{
    match &asked.block {
        Some(block) => claim(
            alloc,
            &asked.table,
            &asked.logs,
            problem,
            goal,
            block,
            place,
            row,
        ),
        None => {
            let block = no_block(alloc);
            claim(
                alloc,
                &asked.table,
                &asked.logs,
                problem,
                goal,
                &block,
                place,
                row,
            )
        }
    }
}

/// A block without matrices.
pub(crate) fn no_block(alloc: Global) -> Block
    ensures block { (ps : List Part) → block_of ps result ≡ block_at None }
    ensures parts { (ps : List Part) → AreBlockParts ps result }
{
    Block {
        ideal: 0,
        degree: 0,
        differentials: Vec::new(alloc),
        lift: Vec::new(alloc),
        cocycles: Vec::new(alloc),
        kernels: Vec::new(alloc),
        morphism: Vec::new(alloc),
    }
}
