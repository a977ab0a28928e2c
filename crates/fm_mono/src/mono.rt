// Monomials.
ghost use Rattle.std.specs.Prelude.{IsTrue, length, replicate, slice_index, sum, true, ◌+◌, ◌<◌, ◌^◌, ◌↔◌, ◌≡◌, ◌≤◌};
ghost use Rattle.fm_tuple.specs.Tuple.{TupleDivides, tuple_difference, tuple_maximum, tuple_multiple, tuple_sum};
ghost use Rattle.fm_mono.specs.Bounded.{bounded, exponent_bound, is_bounded};
ghost use Rattle.fm_mono.specs.Orders.{first_cmp, last_cmp, monomial_cmp};

use crate::entries::{
    add_all, are_within, capped_power, compare_first, compare_last, divides_all, maximum_all,
    multiply_all, subtract_all, total,
};
use crate::exponent::EXPONENT_BOUND;
use crate::order::Order;
use std::cmp::Ordering;
use std::marker::Model;

/// A monomial in one to eight variables. Contracts see it as the list of its exponents.
#[derive(Clone, Copy, Debug, PartialEq, Eq)]
pub struct Mono {
    exponents: [u32; 8],
    degree: u32,
    vars: u8,
}

impl Model for Mono {
    ghost use Rattle.std.specs.Prelude.{List, length, replicate, sum, take, ℕ, ◌++◌, ◌-◌};

    ghost Value = { List ℕ };

    ghost use Rattle.fm_mono.specs.Packed.{IsPacked};

    ghost view = { λ m. take m.vars m.exponents };

    ghost invariant = { IsPacked };

    ghost inverse = { λ a. record { exponents = a ++ replicate (8 - length a) 0; degree = sum a; vars = length a } };
}

impl Mono {
    /// The monomial 1 in this many variables.
    pub fn one(vars: u8) -> Mono
        requires some { 1 ≤ vars }
        requires few { vars ≤ 8 }
        ensures { result ≡ replicate vars 0 }
    {
        Mono {
            exponents: [0; 8],
            degree: 0,
            vars,
        }
    }

    pub fn of(exponents: &[u32]) -> Mono
        requires some { 1 ≤ length exponents.now }
        requires few { length exponents.now ≤ 8 }
        requires within { is_bounded exponents.now ≡ true }
        ensures { result ≡ exponents.now }
    {
        let mut all = [0; 8];
        all[..exponents.len()].copy_from_slice(exponents);
        Mono {
            exponents: all,
            degree: total(exponents),
            vars: exponents.len() as u8,
        }
    }

    /// The number of variables.
    #[inline]
    pub fn vars(self) -> u8
        ensures exact { result ≡ length self }
        ensures some { 1 ≤ result }
        ensures few { result ≤ 8 }
        ensures within { is_bounded self ≡ true }
    {
        self.vars
    }

    /// The total degree.
    #[inline]
    pub fn degree(self) -> u32
        ensures { result ≡ sum self }
    {
        self.degree
    }

    #[inline]
    pub fn exponent(self, k: u8) -> u32
        requires { k < length self }
        ensures exact { result ≡ slice_index self k }
        ensures within { result ≤ exponent_bound }
    {
        self.exponents[usize::from(k)]
    }

    /// Compares in an order. Neither monomial is copied.
    #[inline]
    pub fn compare(&self, order: Order, b: &Mono) -> Ordering
        requires { length self.now ≡ length b.now }
        ensures { result ≡ monomial_cmp order self.now b.now }
    {
        match order {
            Order::Grevlex => self.compare_grevlex(b),
            Order::Deglex => self.compare_deglex(b),
            Order::Lex => self.compare_first(b),
        }
    }

    #[inline]
    fn compare_grevlex(&self, b: &Mono) -> Ordering
        requires { length self.now ≡ length b.now }
        ensures { result ≡ monomial_cmp Order.Grevlex self.now b.now }
    {
        match self.degree().cmp(&b.degree()) {
            Ordering::Equal => self.compare_last(b),
            decided => decided,
        }
    }

    #[inline]
    fn compare_deglex(&self, b: &Mono) -> Ordering
        requires { length self.now ≡ length b.now }
        ensures { result ≡ monomial_cmp Order.Deglex self.now b.now }
    {
        match self.degree().cmp(&b.degree()) {
            Ordering::Equal => self.compare_first(b),
            decided => decided,
        }
    }

    // Compares by the first variable whose exponents differ, the greater exponent being greater.
    #[inline]
    fn compare_first(&self, b: &Mono) -> Ordering
        requires { length self.now ≡ length b.now }
        ensures { result ≡ first_cmp self.now b.now }
    {
        compare_first(&self.exponents, &b.exponents)
    }

    // Compares by the last variable whose exponents differ, the smaller exponent being greater.
    #[inline]
    fn compare_last(&self, b: &Mono) -> Ordering
        requires { length self.now ≡ length b.now }
        ensures { result ≡ last_cmp self.now b.now }
    {
        compare_last(&self.exponents, &b.exponents)
    }

    /// The product, where no exponent of it passes the bound.
    #[inline]
    pub fn times(self, b: Mono) -> Option<Mono>
        requires { length self ≡ length b }
        ensures { result ≡ bounded (tuple_sum self b) }
    {
        let exponents = add_all(&self.exponents, &b.exponents);
        let degree = self.degree + b.degree;
        if !are_within(&exponents, degree) {
            return None;
        }
        Some(Mono {
            exponents,
            degree,
            vars: self.vars,
        })
    }

    /// The product, no exponent of which passes the bound.
    #[inline]
    pub fn times_within(&self, b: &Mono) -> Mono
        requires same { length self.now ≡ length b.now }
        requires within { is_bounded (tuple_sum self.now b.now) ≡ true }
        ensures { result ≡ tuple_sum self.now b.now }
    {
        Mono {
            exponents: add_all(&self.exponents, &b.exponents),
            degree: self.degree + b.degree,
            vars: self.vars,
        }
    }

    #[inline]
    pub fn divides(self, b: Mono) -> bool
        requires { length self ≡ length b }
        ensures { IsTrue result ↔ TupleDivides self b }
    {
        if self.degree > b.degree {
            return false;
        }
        divides_all(&self.exponents, &b.exponents)
    }

    pub fn quotient(self, b: Mono) -> Mono
        requires same { length b ≡ length self }
        requires divisible { TupleDivides b self }
        ensures { result ≡ tuple_difference self b }
    {
        Mono {
            exponents: subtract_all(&self.exponents, &b.exponents),
            degree: self.degree - b.degree,
            vars: self.vars,
        }
    }

    /// The least common multiple.
    pub fn lcm(self, b: Mono) -> Mono
        requires { length self ≡ length b }
        ensures { result ≡ tuple_maximum self b }
    {
        let exponents = maximum_all(&self.exponents, &b.exponents);
        Mono {
            exponents,
            degree: total(&exponents),
            vars: self.vars,
        }
    }

    /// The `p^e`-th power, where no exponent of it passes the bound.
    pub fn twist(self, p: u8, e: u8) -> Option<Mono>
        ensures { result ≡ bounded (tuple_multiple (p ^ e) self) }
    {
        let q = capped_power(p, e);
        let exponents = multiply_all(&self.exponents, q)?;
        Some(Mono {
            exponents,
            degree: q * self.degree,
            vars: self.vars,
        })
    }
}
