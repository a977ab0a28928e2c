// The monomial orders.
ghost use Rattle.std.specs.Prelude.{length, ◌≡◌};
ghost use Rattle.fm_mono.specs.Orders.{monomial_cmp};

use crate::mono::Mono;
use std::cmp::Ordering;

/// A monomial order: degree reverse lexicographic, degree lexicographic or lexicographic.
#[derive(Clone, Copy, Debug, PartialEq, Eq)]
pub enum Order {
    Grevlex,
    Deglex,
    Lex,
}

impl Order {
    #[inline]
    pub fn compare(self, a: Mono, b: Mono) -> Ordering
        requires { length a ≡ length b }
        ensures { result ≡ monomial_cmp self a b }
    {
        a.compare(self, &b)
    }
}
