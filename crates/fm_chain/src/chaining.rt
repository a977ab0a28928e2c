// The chain of kernels of a generating morphism.
ghost use Rattle.std.specs.Prelude.{IfOk, None, OnOk, length, ◌<◌, ◌≡◌, ◌≤◌};
ghost use Rattle.fm_chain.specs.Chains.{AreMembersOf, EndsWithFactor, HasFactor, IsKernelChain, chain_meaning, links_meaning, turn_value, with_last};
ghost use Rattle.fm_mat.specs.Matrices.{matrix_meaning};
ghost use Rattle.fm_plan.specs.Base.{chain_of, chain_turn, chain_work};
ghost use Rattle.fm_plan.specs.Following.{FollowsPlan};
ghost use Rattle.fm_run.specs.Runs.{Follows};
ghost use Rattle.fm_syz.specs.GraphValues.{graph_meaning};

use crate::chain::{Chain, member};
use crate::links::next_member;
use fm_mat::{Column, Matrix};
use fm_run::{Name, Side, Stop, Stopped, Task, Work, in_task};
use fm_syz::{Graph, Inside, Outside, Preimage};
use std::alloc::Global;

/// The chain of kernels of u, from the graph of the relations, through its first repeat: the tasks `chain 1`, `chain 2`, ..
pub fn kernel_chain(
    alloc: Global,
    side: Side,
    u: &Matrix,
    relations: &Graph,
    work: &mut Work,
) -> Result<Chain, Stopped>
    requires some { 1 ≤ relations.now.matrix.ring.vars }
    requires few { relations.now.matrix.ring.vars ≤ 8 }
    requires ring { u.now.ring ≡ relations.now.matrix.ring }
    requires rows { u.now.rows ≡ relations.now.matrix.rows }
    requires square { length u.now.columns ≡ relations.now.matrix.rows }
    ensures follows { let r = relations.now.matrix.ring in FollowsPlan (chain_meaning r relations.now) result work.old work.new
        (chain_of r side (matrix_meaning r u.now) (graph_meaning r relations.now) work.old) }
    ensures members { IfOk result (λ c. AreMembersOf relations.now.matrix.ring relations.now.matrix.rows c.links) }
    ensures factor { IfOk result (HasFactor relations.now.matrix.ring relations.now) }
    ensures chain { let r = relations.now.matrix.ring in IfOk result (IsKernelChain r relations.now (matrix_meaning r u.now)) }
{
    // What the columns and the graph tell: all columns have as many entries, and the graph is complete.
    let _columns = u.columns();
    let _relations = relations.matrix();
    first_repeat(alloc, side, u, relations, work)
}

/// The links, up to the first repeat.
fn first_repeat(
    alloc: Global,
    side: Side,
    u: &Matrix,
    relations: &Graph,
    work: &mut Work,
) -> Result<Chain, Stopped>
    requires some { 1 ≤ relations.now.matrix.ring.vars }
    requires few { relations.now.matrix.ring.vars ≤ 8 }
    requires ring { u.now.ring ≡ relations.now.matrix.ring }
    requires rows { u.now.rows ≡ relations.now.matrix.rows }
    requires square { length u.now.columns ≡ relations.now.matrix.rows }
    ensures follows { let r = relations.now.matrix.ring in FollowsPlan (chain_meaning r relations.now) result work.old work.new
        (chain_of r side (matrix_meaning r u.now) (graph_meaning r relations.now) work.old) }
    ensures members { IfOk result (λ c. AreMembersOf relations.now.matrix.ring relations.now.matrix.rows c.links) }
    ensures factor { IfOk result (HasFactor relations.now.matrix.ring relations.now) }
{
    let mut links = Vec::new(alloc);
    let mut growth = Vec::new(alloc);
    'members: loop {
        match next_link(alloc, side, u, relations, &mut links, &mut growth, work) {
            Ok(None) => {}
            Ok(Some(w)) => return Ok(Chain::new(links, growth, w)),
            Err(stopped) => return Err(stopped),
        }
    }
}

/// The next task.
fn next_link(
    alloc: Global,
    side: Side,
    u: &Matrix,
    relations: &Graph,
    links: &mut Vec<Preimage>,
    growth: &mut Vec<Outside>,
    work: &mut Work,
) -> Result<Option<Vec<Column>>, Stopped>
    requires some { 1 ≤ relations.now.matrix.ring.vars }
    requires few { relations.now.matrix.ring.vars ≤ 8 }
    requires ring { u.now.ring ≡ relations.now.matrix.ring }
    requires rows { u.now.rows ≡ relations.now.matrix.rows }
    requires square { length u.now.columns ≡ relations.now.matrix.rows }
    requires count { length links.old.items ≡ length growth.old.items }
    requires members { AreMembersOf relations.now.matrix.ring relations.now.matrix.rows links.old.items }
    ensures follows { let r = relations.now.matrix.ring in
        FollowsPlan (turn_value r relations.now links.new.items growth.new.items) result work.old work.new
        (chain_turn r side (matrix_meaning r u.now) (links_meaning r relations.now links.old.items growth.old.items) work.old) }
    ensures count { IfOk result (λ o. length links.new.items ≡ with_last o (length growth.new.items)) }
    ensures members { OnOk result (AreMembersOf relations.now.matrix.ring relations.now.matrix.rows links.new.items) }
    ensures factor { IfOk result (EndsWithFactor relations.now.matrix.ring relations.now links.new.items growth.new.items) }
    ensures spent { IfOk result (λ o. o ≡ None → work.new < work.old) }
{
    let number = growth.len() as u64 + 1;
    let turn = grow(alloc, u, relations, links, growth, work);
    in_task(
        Task {
            side,
            name: Name::Chain,
            number,
        },
        turn,
    )
}

/// Adds the next member, and the column of it that is outside the one before; where there is none, the member is the last, and these are the columns of w.
fn grow(
    alloc: Global,
    u: &Matrix,
    relations: &Graph,
    links: &mut Vec<Preimage>,
    growth: &mut Vec<Outside>,
    work: &mut Work,
) -> Result<Option<Vec<Column>>, Stop>
    requires some { 1 ≤ relations.now.matrix.ring.vars }
    requires few { relations.now.matrix.ring.vars ≤ 8 }
    requires ring { u.now.ring ≡ relations.now.matrix.ring }
    requires rows { u.now.rows ≡ relations.now.matrix.rows }
    requires square { length u.now.columns ≡ relations.now.matrix.rows }
    requires count { length links.old.items ≡ length growth.old.items }
    requires members { AreMembersOf relations.now.matrix.ring relations.now.matrix.rows links.old.items }
    ensures follows { let r = relations.now.matrix.ring in
        Follows (turn_value r relations.now links.new.items growth.new.items) result work.old work.new
        (chain_work r (matrix_meaning r u.now) (links_meaning r relations.now links.old.items growth.old.items) work.old) }
    ensures count { IfOk result (λ o. length links.new.items ≡ with_last o (length growth.new.items)) }
    ensures members { OnOk result (AreMembersOf relations.now.matrix.ring relations.now.matrix.rows links.new.items) }
    ensures factor { IfOk result (EndsWithFactor relations.now.matrix.ring relations.now links.new.items growth.new.items) }
    ensures spent { IfOk result (λ o. o ≡ None → work.new < work.old) }
{
    let g = member(relations, links, growth.len());
    let link = next_member(alloc, u, g, work)?;
    links.push(link.member)?;
    match link.inside {
        Inside::All(columns) => Ok(Some(columns)),
        Inside::First(outside) => {
            growth.push(outside)?;
            Ok(None)
        }
    }
}
