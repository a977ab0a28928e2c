// Pending pairs as keys of a set that keeps them in their order.
ghost use Rattle.std.proofs.Common.{refl};
ghost use Rattle.std.specs.Prelude.{◌≡◌};
ghost use Rattle.std.specs.Ordering.{as_partial_cmp};
ghost use Rattle.fm_complete.specs.Pending.{order_number, pending_cmp, pending_eq};
ghost use Rattle.fm_complete.specs.PendingOrder.{pending_equivalence, pending_partial, pending_partial_equivalence, pending_total};

use crate::CriticalPair;
use fm_mono::Order;
use std::cmp::Ordering;

/// A critical pair, with the order in which it is compared with others. Pairs of two orders, or over two numbers of variables, are compared
/// by these.
#[derive(Clone, Copy)]
pub(crate) struct PendingPair {
    pub order: Order,
    pub pair: CriticalPair,
}

impl PartialEq for PendingPair {
    ghost eq = { pending_eq };

    ghost laws = { pending_partial_equivalence };

    fn eq(&self, other: &PendingPair) -> bool {
        self.cmp(other).is_eq()
    }
}

impl Eq for PendingPair {
    ghost laws = { pending_equivalence };
}

impl PartialOrd for PendingPair {
    ghost partial_cmp = { as_partial_cmp pending_cmp };

    ghost laws = { pending_partial };

    fn partial_cmp(&self, other: &PendingPair) -> Option<Ordering> {
        Some(self.cmp(other))
    }
}

impl Ord for PendingPair {
    ghost cmp = { pending_cmp };

    ghost total = { pending_total };

    ghost matches_partial_cmp = { λ x y. refl };

    ghost matches_eq = { λ x y. refl };

    fn cmp(&self, other: &PendingPair) -> Ordering {
        match order_number(self.order).cmp(&order_number(other.order)) {
            Ordering::Equal => {}
            decided => return decided,
        }
        match self.pair.lcm.vars().cmp(&other.pair.lcm.vars()) {
            Ordering::Equal => self.pair.compare(self.order, &other.pair),
            decided => decided,
        }
    }
}

fn order_number(order: Order) -> u8
    ensures { result ≡ order_number order }
{
    match order {
        Order::Grevlex => 0,
        Order::Deglex => 1,
        Order::Lex => 2,
    }
}
