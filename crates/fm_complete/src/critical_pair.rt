// Critical pairs, and the order in which they are taken up.
ghost use Rattle.std.specs.Prelude.{length, ◌≡◌};
ghost use Rattle.fm_complete.specs.Completions.{pair_cmp};

use fm_mono::{Mono, Order};
use std::cmp::Ordering;

/// Two members with heads in one component: the least common multiple of the heads, and the numbers of both from 1.
#[derive(Clone, Copy, Debug, PartialEq, Eq)]
pub struct CriticalPair {
    pub lcm: Mono,
    pub component: u32,
    pub later: u32,
    pub earlier: u32,
}

impl CriticalPair {
    /// Which of two pairs is taken up first.
    pub(crate) fn compare(&self, order: Order, b: &CriticalPair) -> Ordering
        requires { length self.now.lcm ≡ length b.now.lcm }
        ensures { result ≡ pair_cmp order self.now b.now }
    {
        match b.component.cmp(&self.component) {
            Ordering::Equal => {}
            decided => return decided,
        }
        match order.compare(self.lcm, b.lcm) {
            Ordering::Equal => {}
            decided => return decided,
        }
        match self.later.cmp(&b.later) {
            Ordering::Equal => self.earlier.cmp(&b.earlier),
            decided => decided,
        }
    }
}
