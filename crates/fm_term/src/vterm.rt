// A term of a vector.
ghost use Rattle.std.specs.Prelude.{length, ◌≡◌};
ghost use Rattle.fm_term.specs.Places.{term_cmp};

use fm_gfp::Gf;
use fm_mono::{Mono, Order};
use std::cmp::Ordering;

/// A coefficient times a monomial, in a component of a vector. Components count from 1.
#[derive(Clone, Copy, Debug, PartialEq, Eq)]
pub struct VTerm {
    pub mono: Mono,
    pub component: u32,
    pub coeff: Gf,
}

impl VTerm {
    /// Compares the places of two terms: a smaller component is greater, then the order decides.
    #[inline]
    pub fn compare(&self, order: Order, b: &VTerm) -> Ordering
        requires { length self.now.mono ≡ length b.now.mono }
        ensures { result ≡ term_cmp order self.now b.now }
    {
        match b.component.cmp(&self.component) {
            Ordering::Equal => self.mono.compare(order, &b.mono),
            decided => decided,
        }
    }
}
