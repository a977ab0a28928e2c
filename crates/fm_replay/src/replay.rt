// A log as far as it was replayed.
ghost use Rattle.std.specs.Prelude.{IfOk, List, None, OnErr, OnOk, length, nat_eq, nat_lt, not, ◌&&◌, ◌<◌, ◌^◌, ◌≡◌};
ghost use Rattle.fm_term.specs.declared.vterm.VTerm.{VTerm};
ghost use Rattle.fm_complete.specs.Bases.{entry_value};
ghost use Rattle.fm_complete.specs.Divisions.{AreMembers, terms_of};
ghost use Rattle.fm_complete.specs.Standing.{AreOfShape};
ghost use Rattle.fm_parts.specs.Replays as definitions;
ghost use Rattle.fm_replay.specs.Kept.{Adds, DecidesWhole, Enters, Finds, IsNextMember, after_input, after_pair, nothing_kept};

use crate::heads::{divides_lcm, in_one_component};
use crate::numbers::{are_numbers, numbered};
use crate::rest::rest_kept;
use crate::{Fault, Refusal, reduce_by};
use fm_complete::{Entry, Start};
use fm_poly::{PolyError, Ring};
use fm_vec::Vector;
use std::alloc::{AllocError, Global};
use std::collections::BTreeSet;
use std::marker::Model;

/// The members so far, the numbers of the inputs that were taken, and those of the pairs that were formed or skipped.
#[derive(Drop)]
pub struct Replay {
    ring: Ring,
    rows: u32,
    members: Vec<Vector>,
    taken: BTreeSet<u32, Global>,
    treated: BTreeSet<(u32, u32), Global>,
}

impl Model for Replay {
    ghost use Rattle.fm_replay.specs.Kept.{AreNumbered, ReplayValue};

    ghost Value = { ReplayValue };

    ghost view = { λ p. record { ring = p.ring; rows = p.rows; members = p.members.items; taken = p.taken.keys; treated = p.treated.keys } };

    ghost invariant = { λ p. AreNumbered p.ring p.rows p.members.items };
}

impl Replay {
    /// Of no entries, for vectors over this ring with this number of components.
    pub fn new(alloc: Global, ring: Ring, rows: u32) -> Replay
        ensures { result ≡ nothing_kept ring rows }
    {
        Replay {
            ring,
            rows,
            members: Vec::new(alloc),
            taken: BTreeSet::new(alloc),
            treated: BTreeSet::new(alloc),
        }
    }

    pub fn members(&self) -> &[Vector]
        ensures members { result.now ≡ self.now.members }
        ensures shape { AreOfShape self.now.ring self.now.rows self.now.members }
    {
        &self.members
    }

    pub fn into_members(self) -> Vec<Vector>
        ensures members { result.items ≡ self.members }
        ensures nonzero { AreMembers self.ring self.rows self.members }
    {
        self.members
    }

    /// One entry. After a refusal the replay is as it was.
    pub fn enter(&mut self, alloc: Global, inputs: &[Vector], entry: &Entry) -> Result<(), Refusal>
        requires inputs { AreOfShape self.old.ring self.old.rows inputs.now }
        ensures enters { Enters self.old self.new result (λ s. definitions.replay_entry self.old.ring (terms_of inputs.now) s (entry_value entry.now)) }
        ensures shape { (self.new.ring ≡ self.old.ring) × (self.new.rows ≡ self.old.rows) }
        ensures unchanged { OnErr result (self.new ≡ self.old) }
    {
        match entry.start {
            Start::Input(k) => self.enter_input(alloc, inputs, k, &entry.by, entry.keep),
            Start::Pair(a, b) => self.enter_pair(alloc, a, b, &entry.by, entry.keep),
            Start::Skip(a, b, k) => self.enter_skip(a, b, k),
        }
    }

    fn enter_input(
        &mut self,
        alloc: Global,
        inputs: &[Vector],
        k: u32,
        by: &[u32],
        keep: bool,
    ) -> Result<(), Refusal>
        requires inputs { AreOfShape self.old.ring self.old.rows inputs.now }
        ensures enters { Enters self.old self.new result (λ s. definitions.take_input self.old.ring (terms_of inputs.now) s k by.now keep) }
        ensures shape { (self.new.ring ≡ self.old.ring) × (self.new.rows ≡ self.old.rows) }
        ensures unchanged { OnErr result (self.new ≡ self.old) }
    {
        let member = match self.input_rest(alloc, inputs, k, by, keep) {
            Ok(member) => member,
            Err(refusal) => return Err(refusal),
        };
        match self.take_input(k, member) {
            Ok(()) => Ok(()),
            Err(_) => Err(Refusal::Memory),
        }
    }

    fn enter_pair(
        &mut self,
        alloc: Global,
        a: u32,
        b: u32,
        by: &[u32],
        keep: bool,
    ) -> Result<(), Refusal>
        ensures enters { (inputs : List (List VTerm)) → Enters self.old self.new result (λ s. definitions.take_pair self.old.ring inputs s a b by.now keep) }
        ensures shape { (self.new.ring ≡ self.old.ring) × (self.new.rows ≡ self.old.rows) }
        ensures unchanged { OnErr result (self.new ≡ self.old) }
    {
        let member = match self.pair_rest(alloc, a, b, by, keep) {
            Ok(member) => member,
            Err(refusal) => return Err(refusal),
        };
        match self.treat_pair(a, b, member) {
            Ok(()) => Ok(()),
            Err(_) => Err(Refusal::Memory),
        }
    }

    fn enter_skip(&mut self, a: u32, b: u32, k: u32) -> Result<(), Refusal>
        ensures enters { (inputs : List (List VTerm)) → Enters self.old self.new result (λ s. definitions.skip_pair self.old.ring inputs s a b k) }
        ensures shape { (self.new.ring ≡ self.old.ring) × (self.new.rows ≡ self.old.rows) }
        ensures unchanged { OnErr result (self.new ≡ self.old) }
    {
        match self.skips(a, b, k) {
            Ok(()) => {}
            Err(refusal) => return Err(refusal),
        }
        match self.treat_pair(a, b, None) {
            Ok(()) => Ok(()),
            Err(_) => Err(Refusal::Memory),
        }
    }

    /// What is kept of an input.
    fn input_rest(
        &self,
        alloc: Global,
        inputs: &[Vector],
        k: u32,
        by: &[u32],
        keep: bool,
    ) -> Result<Option<Vector>, Refusal>
        requires inputs { AreOfShape self.now.ring self.now.rows inputs.now }
        ensures finds { Finds self.now result (λ s m. after_input s k m)
            (λ s. definitions.take_input self.now.ring (terms_of inputs.now) s k by.now keep) }
        ensures next { IfOk result (IsNextMember self.now.ring self.now.rows) }
    {
        if !are_numbers(&self.members, by) {
            return Err(Refusal::Bad(Fault::Reference));
        }
        let Some(input) = numbered(self.ring, self.rows, inputs, k) else {
            return Err(Refusal::Bad(Fault::Step));
        };
        if self.is_taken(k) {
            return Err(Refusal::Bad(Fault::Step));
        }
        let v = input.copy(alloc)?;
        let rest = match reduce_by(alloc, self.ring, self.rows, &self.members, by, v) {
            Ok(rest) => rest,
            Err(refusal) => return Err(refusal),
        };
        rest_kept(alloc, keep, rest)
    }

    /// What is kept of the S-vector of a pair.
    fn pair_rest(
        &self,
        alloc: Global,
        a: u32,
        b: u32,
        by: &[u32],
        keep: bool,
    ) -> Result<Option<Vector>, Refusal>
        ensures finds { (inputs : List (List VTerm)) → Finds self.now result (λ s m. after_pair s a b m)
            (λ s. definitions.take_pair self.now.ring inputs s a b by.now keep) }
        ensures next { IfOk result (IsNextMember self.now.ring self.now.rows) }
    {
        let Some(f) = numbered(self.ring, self.rows, &self.members, a) else {
            return Err(Refusal::Bad(Fault::Reference));
        };
        let Some(g) = numbered(self.ring, self.rows, &self.members, b) else {
            return Err(Refusal::Bad(Fault::Reference));
        };
        if !are_numbers(&self.members, by) {
            return Err(Refusal::Bad(Fault::Reference));
        }
        if !self.is_open(f, g, a, b) {
            return Err(Refusal::Bad(Fault::Step));
        }
        let v = match f.s_vector(alloc, g) {
            Ok(v) => v,
            Err(PolyError::Exponent) => return Err(Refusal::Bad(Fault::Exponents)),
            Err(PolyError::Memory) => return Err(Refusal::Memory),
        };
        let rest = match reduce_by(alloc, self.ring, self.rows, &self.members, by, v) {
            Ok(rest) => rest,
            Err(refusal) => return Err(refusal),
        };
        rest_kept(alloc, keep, rest)
    }

    /// Whether the pair of a and b is skipped by k.
    fn skips(&self, a: u32, b: u32, k: u32) -> Result<(), Refusal>
        ensures { (inputs : List (List VTerm)) → Finds self.now result (λ s _. after_pair s a b None)
            (λ s. definitions.skip_pair self.now.ring inputs s a b k) }
    {
        let Some(f) = numbered(self.ring, self.rows, &self.members, a) else {
            return Err(Refusal::Bad(Fault::Reference));
        };
        let Some(g) = numbered(self.ring, self.rows, &self.members, b) else {
            return Err(Refusal::Bad(Fault::Reference));
        };
        let Some(h) = numbered(self.ring, self.rows, &self.members, k) else {
            return Err(Refusal::Bad(Fault::Reference));
        };
        if !self.is_open(f, g, a, b) || k == a || k == b {
            return Err(Refusal::Bad(Fault::Step));
        }
        if !divides_lcm(self.ring, h, f, g) || !self.is_settled(a, k) || !self.is_settled(k, b) {
            return Err(Refusal::Bad(Fault::Step));
        }
        Ok(())
    }

    /// Whether f and g, the members a and b, are a pair that may be treated.
    fn is_open(&self, f: &Vector, g: &Vector, a: u32, b: u32) -> bool
        ensures { result ≡ (nat_lt a b && (definitions.in_one_component f.now.terms g.now.terms && not (definitions.is_treated self.now.treated a b))) }
    {
        a < b && in_one_component(f, g) && !self.is_treated(a, b)
    }

    fn is_taken(&self, k: u32) -> bool
        ensures { result ≡ definitions.is_taken self.now.taken k }
    {
        self.taken.contains(&k)
    }

    fn is_treated(&self, a: u32, b: u32) -> bool
        ensures { result ≡ definitions.is_treated self.now.treated a b }
    {
        self.treated.contains(&(a, b))
    }

    fn is_settled(&self, a: u32, b: u32) -> bool
        ensures { result ≡ definitions.is_settled self.now.treated a b }
    {
        self.is_treated(a, b) || self.is_treated(b, a)
    }

    /// Whether all inputs were taken, and all pairs of members with heads in one component were treated.
    pub fn is_whole(&self, inputs: &[Vector]) -> bool
        requires few { length inputs.now < 2 ^ 32 }
        ensures { DecidesWhole self.now (terms_of inputs.now) result }
    {
        self.all_taken(inputs) && self.all_paired()
    }

    fn all_taken(&self, inputs: &[Vector]) -> bool
        requires few { length inputs.now < 2 ^ 32 }
        ensures { result ≡ definitions.all_taken_from 1 (terms_of inputs.now) self.now.taken }
    {
        let mut k = 0u32;
        let mut left = inputs;
        'inputs: loop {
            let Some((_input, later)) = left.split_first() else {
                return true;
            };
            k += 1;
            if !self.is_taken(k) {
                return false;
            }
            left = later;
        }
    }

    fn all_paired(&self) -> bool
        ensures { result ≡ definitions.all_paired_from 1 (terms_of self.now.members) (terms_of self.now.members) self.now.treated }
    {
        let members = self.members.as_slice();
        let mut b = 0u32;
        let mut left = members;
        'members: loop {
            let Some((g, later)) = left.split_first() else {
                return true;
            };
            b += 1;
            if !self.is_paired(members, g, b) {
                return false;
            }
            left = later;
        }
    }

    /// Whether g, the member b, has been paired with the members before it.
    fn is_paired(&self, members: &[Vector], g: &Vector, b: u32) -> bool
        requires few { length members.now < 2 ^ 32 }
        ensures { result ≡ definitions.is_paired (terms_of members.now) self.now.treated g.now.terms b 1 }
    {
        let mut a = 0u32;
        let mut left = members;
        'members: loop {
            let Some((f, later)) = left.split_first() else {
                return true;
            };
            a += 1;
            if !self.is_done(f, g, a, b) {
                return false;
            }
            left = later;
        }
    }

    /// Whether the pair of f and g, the members a and b, is treated where it has to be.
    fn is_done(&self, f: &Vector, g: &Vector, a: u32, b: u32) -> bool
        ensures { result ≡ definitions.is_done self.now.treated f.now.terms g.now.terms a b }
    {
        !(a < b && in_one_component(f, g)) || self.is_treated(a, b)
    }

    /// Input k, with the member that is kept of it.
    fn take_input(&mut self, k: u32, member: Option<Vector>) -> Result<(), AllocError>
        requires next { IsNextMember self.old.ring self.old.rows member }
        ensures adds { OnOk result (Adds self.old self.new (λ s. after_input s k member)) }
        ensures shape { (self.new.ring ≡ self.old.ring) × (self.new.rows ≡ self.old.rows) }
        ensures unchanged { OnErr result (self.new ≡ self.old) }
    {
        let Some(member) = member else {
            self.taken.insert(k)?;
            return Ok(());
        };
        if self.members.len() >= 4_294_967_295 {
            return Err(AllocError);
        }
        self.members.push(member)?;
        match self.taken.insert(k) {
            Ok(_) => Ok(()),
            Err(_) => {
                self.members.pop();
                Err(AllocError)
            }
        }
    }

    /// The pair of a and b, with the member that is kept of it.
    fn treat_pair(&mut self, a: u32, b: u32, member: Option<Vector>) -> Result<(), AllocError>
        requires next { IsNextMember self.old.ring self.old.rows member }
        ensures adds { OnOk result (Adds self.old self.new (λ s. after_pair s a b member)) }
        ensures shape { (self.new.ring ≡ self.old.ring) × (self.new.rows ≡ self.old.rows) }
        ensures unchanged { OnErr result (self.new ≡ self.old) }
    {
        let Some(member) = member else {
            self.treated.insert((a, b))?;
            return Ok(());
        };
        if self.members.len() >= 4_294_967_295 {
            return Err(AllocError);
        }
        self.members.push(member)?;
        match self.treated.insert((a, b)) {
            Ok(_) => Ok(()),
            Err(_) => {
                self.members.pop();
                Err(AllocError)
            }
        }
    }
}
