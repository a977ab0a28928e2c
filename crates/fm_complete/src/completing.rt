// The standard completion.
ghost use Rattle.std.specs.Prelude.{IfNone, IfOk, OnOk, [], false, length, map, true, ◌<◌, ◌^◌, ◌∷◌, ◌≡◌};
ghost use Rattle.fm_run.specs.Runs.{Budget, Follows};
ghost use Rattle.fm_run.specs.Turns.{repeated};
ghost use Rattle.fm_groebner.specs.Logs.{Input};
ghost use Rattle.fm_complete.specs.Bases.{basis_value, completion_value, entry_value, start_value, turn_value};
ghost use Rattle.fm_complete.specs.Completions as runs;
ghost use Rattle.fm_complete.specs.Completions.{completed, kept, pair_formed, skipping, with_inputs};
ghost use Rattle.fm_complete.specs.Divisions.{AreMembers, terms_of};
ghost use Rattle.fm_complete.specs.Indexed.{IsIndexOf};
ghost use Rattle.fm_complete.specs.Reductions.{divided};
ghost use Rattle.fm_complete.specs.Standing.{AreOfShape, ArePairsOf, ArePending, AreReady, AreStanding, values, with_first, with_pair_first};

use crate::completion::Completion;
use crate::head_index::HeadIndex;
use crate::pairing::push_pairs;
use crate::pairs::s_rest;
use crate::pending::Pending;
use crate::remainder::divided_rest;
use crate::skipping::find_skipper;
use crate::{Basis, CriticalPair, Entry, Remainder, Start};
use fm_poly::Ring;
use fm_run::{Stop, Work};
use fm_vec::Vector;
use std::alloc::{AllocError, Global};

/// Completes the inputs, which are vectors of this ring with this number of components: the members are a Gröbner basis of their span, by
/// the standard run with the chain criterion. It spends one unit for each input, for each S-vector that is formed, and for each head
/// reduction, before it multiplies.
pub fn complete(
    alloc: Global,
    ring: Ring,
    rows: u32,
    inputs: &[&Vector],
    work: &mut Work,
) -> Result<Basis, Stop>
    requires inputs { AreOfShape ring rows (values inputs.now) }
    requires few { length inputs.now < 2 ^ 32 }
    ensures follows { Follows basis_value result work.old work.new (completed ring (terms_of (values inputs.now)) work.old) }
    ensures members { IfOk result (λ b. AreMembers ring rows b.members.items) }
    ensures few { IfOk result (λ b. length b.members.items < 2 ^ 32) }
{
    let heads = HeadIndex::new(alloc, rows)?;
    let mut c = Completion {
        members: Vec::new(alloc),
        heads,
        tails: Vec::new(alloc),
        pending: Pending::new(alloc, ring.order),
        log: Vec::new(alloc),
    };
    match take_inputs(alloc, ring, rows, inputs, &mut c, work) {
        Ok(()) => {}
        Err(stop) => return Err(stop),
    }
    match finish(alloc, ring, rows, &mut c, work) {
        Ok(()) => {}
        Err(stop) => return Err(stop),
    }
    Ok(Basis {
        members: c.members,
        log: c.log,
    })
}

/// Takes up the inputs.
fn take_inputs(
    alloc: Global,
    ring: Ring,
    rows: u32,
    inputs: &[&Vector],
    c: &mut Completion,
    work: &mut Work,
) -> Result<(), Stop>
    requires inputs { AreOfShape ring rows (values inputs.now) }
    requires few { length inputs.now < 2 ^ 32 }
    requires standing { AreStanding ring rows c.old.members.items }
    requires ready { AreReady ring rows c.old.members.items c.old.heads c.old.tails.items }
    requires pairs { ArePending ring c.old.members.items c.old.pending }
    ensures follows { Follows (λ _. completion_value c.new) result work.old work.new
        (with_inputs ring 1 (terms_of (values inputs.now)) (completion_value c.old) work.old) }
    ensures standing { OnOk result (AreStanding ring rows c.new.members.items) }
    ensures ready { OnOk result (AreReady ring rows c.new.members.items c.new.heads c.new.tails.items) }
    ensures pairs { OnOk result (ArePending ring c.new.members.items c.new.pending) }
{
    for k in 0..inputs.len() {
        match take_input(alloc, ring, rows, k as u32 + 1, inputs[k], c, work) {
            Ok(()) => {}
            Err(stop) => return Err(stop),
        }
    }
    Ok(())
}

fn take_input(
    alloc: Global,
    ring: Ring,
    rows: u32,
    number: u32,
    v: &Vector,
    c: &mut Completion,
    work: &mut Work,
) -> Result<(), Stop>
    requires ring { v.now.ring ≡ ring }
    requires rows { v.now.rows ≡ rows }
    requires standing { AreStanding ring rows c.old.members.items }
    requires ready { AreReady ring rows c.old.members.items c.old.heads c.old.tails.items }
    requires pairs { ArePending ring c.old.members.items c.old.pending }
    ensures follows { Follows (λ _. completion_value c.new) result work.old work.new
        (runs.taken_up ring (Input number) (completion_value c.old)
        (λ units. divided ring (terms_of c.old.members.items) units v.now.terms) work.old) }
    ensures standing { OnOk result (AreStanding ring rows c.new.members.items) }
    ensures ready { OnOk result (AreReady ring rows c.new.members.items c.new.heads c.new.tails.items) }
    ensures pairs { OnOk result (ArePending ring c.new.members.items c.new.pending) }
{
    let remainder = match divided_rest(alloc, &c.members, &c.heads, &mut c.tails, v, work) {
        Ok(remainder) => remainder,
        Err(stop) => return Err(stop),
    };
    match keep(alloc, ring, rows, Start::Input(number), remainder, c) {
        Ok(()) => Ok(()),
        Err(_) => Err(Stop::Memory),
    }
}

/// Forms pairs until none is pending.
fn finish(
    alloc: Global,
    ring: Ring,
    rows: u32,
    c: &mut Completion,
    work: &mut Work,
) -> Result<(), Stop>
    requires standing { AreStanding ring rows c.old.members.items }
    requires ready { AreReady ring rows c.old.members.items c.old.heads c.old.tails.items }
    requires pairs { ArePending ring c.old.members.items c.old.pending }
    ensures follows { Follows (λ _. completion_value c.new) result work.old work.new
        (repeated Budget (runs.next_pair ring) (completion_value c.old) work.old) }
    ensures standing { OnOk result (AreStanding ring rows c.new.members.items) }
    ensures ready { OnOk result (AreReady ring rows c.new.members.items c.new.heads c.new.tails.items) }
    ensures done { OnOk result (c.new.pending.pairs ≡ []) }
{
    'pairs: loop {
        match next_pair(alloc, ring, rows, c, work) {
            Ok(true) => {}
            Ok(false) => return Ok(()),
            Err(stop) => return Err(stop),
        }
    }
}

/// Forms the first pair that isn't skipped, and tells whether there is one.
fn next_pair(
    alloc: Global,
    ring: Ring,
    rows: u32,
    c: &mut Completion,
    work: &mut Work,
) -> Result<bool, Stop>
    requires standing { AreStanding ring rows c.old.members.items }
    requires ready { AreReady ring rows c.old.members.items c.old.heads c.old.tails.items }
    requires pairs { ArePending ring c.old.members.items c.old.pending }
    ensures follows { Follows (λ formed. turn_value formed (completion_value c.new)) result work.old work.new
        (runs.next_pair ring (completion_value c.old) work.old) }
    ensures spent { IfOk result (λ formed. formed ≡ true → work.new < work.old) }
    ensures standing { OnOk result (AreStanding ring rows c.new.members.items) }
    ensures ready { OnOk result (AreReady ring rows c.new.members.items c.new.heads c.new.tails.items) }
    ensures pairs { OnOk result (ArePending ring c.new.members.items c.new.pending) }
    ensures done { IfOk result (λ formed. formed ≡ false → c.new.pending.pairs ≡ []) }
{
    let taken = take_pair(
        alloc,
        ring,
        rows,
        &c.members,
        &c.heads,
        &mut c.pending,
        &mut c.log,
    );
    let Ok(first) = taken else {
        return Err(Stop::Memory);
    };
    let Some(p) = first else {
        return Ok(false);
    };
    match form(alloc, ring, rows, p, c, work) {
        Ok(()) => Ok(true),
        Err(stop) => Err(stop),
    }
}

/// Takes out the first pair that isn't skipped.
fn take_pair(
    alloc: Global,
    ring: Ring,
    rows: u32,
    members: &[Vector],
    heads: &HeadIndex,
    pending: &mut Pending,
    log: &mut Vec<Entry>,
) -> Result<Option<CriticalPair>, AllocError>
    requires members { AreMembers ring rows members.now }
    requires heads { IsIndexOf ring rows (terms_of members.now) heads.now }
    requires pairs { ArePending ring members.now pending.old }
    ensures skipped { IfOk result (λ o. skipping (terms_of members.now) (map entry_value log.old.items) pending.old.pairs
        ≡ record { members = terms_of members.now; pending = with_first o pending.new.pairs; log = map entry_value log.new.items }) }
    ensures pairs { IfOk result (λ o. ArePairsOf ring members.now (with_first o pending.new.pairs)) }
    ensures none { IfOk result (λ o. IfNone o (pending.new.pairs ≡ [])) }
    ensures order { pending.new.order ≡ pending.old.order }
{
    'pairs: loop {
        let Some(p) = pending.take_first() else {
            return Ok(None);
        };
        let Some(k) = find_skipper(ring, rows, members, heads, pending, &p) else {
            return Ok(Some(p));
        };
        log.push(Entry {
            start: Start::Skip(p.earlier, p.later, k),
            by: Vec::new(alloc),
            keep: false,
        })?;
    }
}

/// Takes up the S-vector of a pair, which is no longer pending.
fn form(
    alloc: Global,
    ring: Ring,
    rows: u32,
    p: CriticalPair,
    c: &mut Completion,
    work: &mut Work,
) -> Result<(), Stop>
    requires standing { AreStanding ring rows c.old.members.items }
    requires ready { AreReady ring rows c.old.members.items c.old.heads c.old.tails.items }
    requires pairs { ArePending ring c.old.members.items (with_pair_first p c.old.pending) }
    ensures follows { Follows (λ _. completion_value c.new) result work.old work.new
        (pair_formed ring p (completion_value c.old) work.old) }
    ensures spent { OnOk result (work.new < work.old) }
    ensures standing { OnOk result (AreStanding ring rows c.new.members.items) }
    ensures ready { OnOk result (AreReady ring rows c.new.members.items c.new.heads c.new.tails.items) }
    ensures pairs { OnOk result (ArePending ring c.new.members.items c.new.pending) }
{
    let remainder = match s_rest(
        alloc,
        ring,
        rows,
        &c.members,
        &c.heads,
        &mut c.tails,
        p.earlier,
        p.later,
        work,
    ) {
        Ok(remainder) => remainder,
        Err(stop) => return Err(stop),
    };
    match keep(
        alloc,
        ring,
        rows,
        Start::Pair(p.earlier, p.later),
        remainder,
        c,
    ) {
        Ok(()) => Ok(()),
        Err(_) => Err(Stop::Memory),
    }
}

/// Drops a rest that is zero; another, made monic, becomes the next member.
fn keep(
    alloc: Global,
    ring: Ring,
    rows: u32,
    start: Start,
    remainder: Remainder,
    c: &mut Completion,
) -> Result<(), AllocError>
    requires ring { remainder.rest.ring ≡ ring }
    requires rows { remainder.rest.rows ≡ rows }
    requires standing { AreStanding ring rows c.old.members.items }
    requires ready { AreReady ring rows c.old.members.items c.old.heads c.old.tails.items }
    requires pairs { ArePending ring c.old.members.items c.old.pending }
    ensures kept { OnOk result
        (completion_value c.new ≡ kept ring (start_value start) remainder.by.items remainder.rest.terms (completion_value c.old)) }
    ensures standing { OnOk result (AreStanding ring rows c.new.members.items) }
    ensures ready { OnOk result (AreReady ring rows c.new.members.items c.new.heads c.new.tails.items) }
    ensures pairs { OnOk result (ArePending ring c.new.members.items c.new.pending) }
{
    let Some(head) = remainder.rest.head() else {
        c.log.push(Entry {
            start,
            by: remainder.by,
            keep: false,
        })?;
        return Ok(());
    };
    let count = c.members.len();
    if count >= 4_294_967_295 {
        return Err(AllocError);
    }
    let member = remainder.rest.monic(alloc)?;
    push_pairs(
        ring,
        rows,
        count as u32 + 1,
        &head,
        &c.members,
        &mut c.pending,
    )?;
    c.heads.add(ring, count as u32 + 1, &member)?;
    c.members.push(member)?;
    c.log.push(Entry {
        start,
        by: remainder.by,
        keep: true,
    })?;
    Ok(())
}
