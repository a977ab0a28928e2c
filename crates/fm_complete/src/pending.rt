// The pairs that are still to be taken up.
ghost use Rattle.std.specs.Prelude.{IfNone, OnErr, OnOk, [], false, length, ◌≡◌};
ghost use Rattle.fm_complete.specs.Completions.{inserted, is_pending};
ghost use Rattle.fm_complete.specs.Pairs.{ArePairsOver};
ghost use Rattle.fm_complete.specs.Pending.{has_numbers};
ghost use Rattle.fm_complete.specs.Standing.{with_first};

use crate::CriticalPair;
use crate::pending_pair::PendingPair;
use fm_mono::Order;
use std::alloc::{AllocError, Global};
use std::collections::BTreeSet;
use std::marker::Model;

/// Critical pairs in the order in which they are taken up, and the numbers of their members, earlier and later, by which a pair is found.
#[derive(Drop)]
pub(crate) struct Pending {
    order: Order,
    pairs: BTreeSet<PendingPair, Global>,
    numbers: BTreeSet<(u32, u32), Global>,
}

impl Model for Pending {
    ghost use Rattle.fm_complete.specs.Pending.{IsKept, PendingValue, pairs_of};

    ghost Value = { PendingValue };

    ghost view = { λ p. record { order = p.order; pairs = pairs_of p.pairs.keys } };

    ghost invariant = { IsKept };
}

impl Pending {
    /// No pairs, to be compared in this order.
    pub fn new(alloc: Global, order: Order) -> Pending
        ensures { result ≡ record { order = order; pairs = [] } }
    {
        Pending {
            order,
            pairs: BTreeSet::new(alloc),
            numbers: BTreeSet::new(alloc),
        }
    }

    /// Puts a pair into its place, in logarithmic time.
    pub fn insert(&mut self, p: CriticalPair) -> Result<(), AllocError>
        requires over { ArePairsOver (length p.lcm) self.old.pairs }
        requires new { has_numbers self.old.pairs p.earlier p.later ≡ false }
        ensures pairs { OnOk result (self.new.pairs ≡ inserted self.old.order p self.old.pairs) }
        ensures refused { OnErr result (self.new.pairs ≡ self.old.pairs) }
        ensures order { self.new.order ≡ self.old.order }
    {
        let numbers = (p.earlier, p.later);
        let key = PendingPair {
            order: self.order,
            pair: p,
        };
        self.numbers.insert(numbers)?;
        match self.pairs.insert(key) {
            Ok(_) => Ok(()),
            Err(_) => {
                self.numbers.remove(&numbers);
                Err(AllocError)
            }
        }
    }

    /// Takes out the first pair, in logarithmic time.
    pub fn take_first(&mut self) -> Option<CriticalPair>
        ensures first { self.old.pairs ≡ with_first result self.new.pairs }
        ensures none { IfNone result (self.new.pairs ≡ []) }
        ensures order { self.new.order ≡ self.old.order }
    {
        let first = self.pairs.pop_first()?;
        self.numbers.remove(&(first.pair.earlier, first.pair.later));
        Some(first.pair)
    }

    /// Whether the pair of two members is there, in logarithmic time.
    pub fn contains(&self, i: u32, j: u32) -> bool
        ensures { result ≡ is_pending self.now.pairs i j }
    {
        self.numbers.contains(&(i, j)) || self.numbers.contains(&(j, i))
    }
}
