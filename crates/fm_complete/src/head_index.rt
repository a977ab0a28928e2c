// The heads of members by their components, so that the first member whose head divides a term is found without the other components.
ghost use Rattle.std.specs.Prelude.{IfOk, List, OnOk, [], length, suc, ℕ, ◌++◌, ◌<◌, ◌^◌, ◌∷◌, ◌≡◌, ◌≢◌, ◌≤◌};
ghost use Rattle.fm_poly.specs.declared.ring.Ring.{Ring as RingValue};
ghost use Rattle.fm_term.specs.declared.vterm.VTerm.{VTerm as TermValue};
ghost use Rattle.fm_complete.specs.Indexed.{IsIndexOf, heads_from, heads_in};
ghost use Rattle.fm_complete.specs.Divisions.{AreMembers, terms_of};

use fm_poly::Ring;
use fm_term::VTerm;
use fm_vec::Vector;
use std::alloc::{AllocError, Global};
use std::marker::Model;

/// The head of a member, with its number from 1.
#[derive(Clone, Copy, Debug, PartialEq, Eq)]
pub struct Head {
    pub number: u32,
    pub term: VTerm,
}

/// The heads in one component, in the order of their numbers.
#[derive(Drop)]
pub(crate) struct HeadRow {
    heads: Vec<Head>,
}

impl Model for HeadRow {
    ghost use Rattle.std.specs.Prelude.{List};
    ghost use Rattle.fm_complete.specs.declared.head_index.Head.{Head as HeadValue};

    ghost Value = { List HeadValue };

    ghost view = { λ r. r.heads.items };
}

impl HeadRow {
    fn new(alloc: Global) -> HeadRow
        ensures { result ≡ [] }
    {
        HeadRow {
            heads: Vec::new(alloc),
        }
    }

    fn push(&mut self, head: Head) -> Result<(), AllocError>
        ensures { OnOk result (self.new ≡ self.old ++ head ∷ []) }
    {
        self.heads.push(head)?;
        Ok(())
    }

    fn heads(&self) -> &[Head]
        ensures { result.now ≡ self.now }
    {
        &self.heads
    }
}

/// The heads of members, a row for each component.
#[derive(Drop)]
pub(crate) struct HeadIndex {
    rows: Vec<HeadRow>,
}

impl Model for HeadIndex {
    ghost use Rattle.std.specs.Prelude.{List};
    ghost use Rattle.fm_complete.specs.declared.head_index.Head.{Head as HeadValue};

    ghost Value = { List (List HeadValue) };

    ghost view = { λ x. x.rows.items };
}

impl HeadIndex {
    /// The index of no members.
    pub fn new(alloc: Global, rows: u32) -> Result<HeadIndex, AllocError>
        ensures { IfOk result (λ x. x ≡ heads_from rows 1 []) }
    {
        let mut all = Vec::with_capacity(alloc, rows as usize)?;
        for _k in 0..rows {
            all.push(HeadRow::new(alloc))?;
        }
        Ok(HeadIndex { rows: all })
    }

    /// The heads in a component.
    pub fn row(&self, component: u32) -> &[Head]
        ensures { (r : RingValue) (n : ℕ) (members : List (List TermValue)) → IsIndexOf r n members self.now
            → result.now ≡ heads_in component 1 members }
    {
        if component == 0 || component as usize > self.rows.len() {
            return &[];
        }
        self.rows[component as usize - 1].heads()
    }

    /// The index of these members.
    pub fn of(
        alloc: Global,
        ring: Ring,
        rows: u32,
        members: &[Vector],
    ) -> Result<HeadIndex, AllocError>
        requires members { AreMembers ring rows members.now }
        requires few { length members.now < 2 ^ 32 }
        ensures { IfOk result (λ x. IsIndexOf ring rows (terms_of members.now) x) }
    {
        let mut out = HeadIndex::new(alloc, rows)?;
        for k in 0..members.len() {
            out.add(ring, k as u32 + 1, &members[k])?;
        }
        Ok(out)
    }

    /// Puts in one member more.
    pub fn add(&mut self, ring: Ring, number: u32, v: &Vector) -> Result<(), AllocError>
        requires ring { v.now.ring ≡ ring }
        requires count { length self.old ≡ v.now.rows }
        requires some { v.now.terms ≢ [] }
        ensures index { OnOk result
            ((members : List (List TermValue)) → IsIndexOf ring v.now.rows members self.old → number ≡ suc (length members)
            → IsIndexOf ring v.now.rows (members ++ v.now.terms ∷ []) self.new) }
        ensures count { length self.new ≡ length self.old }
    {
        let Some(head) = v.head() else {
            unreachable!();
        };
        self.push(number, head)
    }

    fn push(&mut self, number: u32, head: VTerm) -> Result<(), AllocError>
        requires low { 1 ≤ head.component }
        requires high { head.component ≤ length self.old }
        ensures heads { OnOk result
            ((n : ℕ) (members : List (List TermValue)) (ts : List TermValue) → self.old ≡ heads_from n 1 members
            → number ≡ suc (length members)
            → self.new ≡ heads_from n 1 (members ++ (head ∷ ts) ∷ [])) }
        ensures count { length self.new ≡ length self.old }
    {
        let row = head.component as usize - 1;
        self.rows[row].push(Head { number, term: head })
    }
}
