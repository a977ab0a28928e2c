// The loops over the exponents of monomials. All eight places are gone through without a way out before the last one,
// where that is possible: the compiler makes vector instructions of such a loop.
ghost use Rattle.std.specs.Prelude.{IsTrue, length, min, sum, true, ◌+◌, ◌^◌, ◌↔◌, ◌≡◌, ◌≤◌};
ghost use Rattle.fm_tuple.specs.Tuple.{TupleDivides, tuple_difference, tuple_maximum, tuple_multiple, tuple_sum};
ghost use Rattle.fm_mono.specs.Bounded.{bounded, exponent_bound, is_bounded};
ghost use Rattle.fm_mono.specs.Orders.{first_cmp, last_cmp};
ghost use Rattle.fm_mono.specs.Packed.{pair_word};

use crate::exponent::EXPONENT_BOUND;
use std::cmp::Ordering;

pub fn total(a: &[u32]) -> u32
    requires few { length a.now ≤ 8 }
    requires within { is_bounded a.now ≡ true }
    ensures { result ≡ sum a.now }
{
    let mut sum = 0;
    for k in 0..a.len() {
        sum += a[k];
    }
    sum
}

pub fn add_all(a: &[u32; 8], b: &[u32; 8]) -> [u32; 8]
    requires a_within { is_bounded a.now ≡ true }
    requires b_within { is_bounded b.now ≡ true }
    ensures { result ≡ tuple_sum a.now b.now }
{
    let mut sums = [0; 8];
    for k in 0..8 {
        sums[k] = a[k] + b[k];
    }
    sums
}

// No exponent passes the total degree, so that most need no further look.
pub fn are_within(a: &[u32; 8], degree: u32) -> bool
    requires { degree ≡ sum a.now }
    ensures { result ≡ is_bounded a.now }
{
    if degree <= EXPONENT_BOUND {
        return true;
    }
    all_within(a)
}

#[cold]
#[inline(never)]
fn all_within(a: &[u32; 8]) -> bool
    ensures { result ≡ is_bounded a.now }
{
    for k in 0..8 {
        if a[k] > EXPONENT_BOUND {
            return false;
        }
    }
    true
}

pub fn divides_all(a: &[u32; 8], b: &[u32; 8]) -> bool
    ensures { IsTrue result ↔ TupleDivides a.now b.now }
{
    let mut all = true;
    for k in 0..8 {
        all = all & (a[k] <= b[k]);
    }
    all
}

pub fn subtract_all(a: &[u32; 8], b: &[u32; 8]) -> [u32; 8]
    requires { TupleDivides b.now a.now }
    ensures { result ≡ tuple_difference a.now b.now }
{
    let mut differences = [0; 8];
    for k in 0..8 {
        differences[k] = a[k] - b[k];
    }
    differences
}

pub fn maximum_all(a: &[u32; 8], b: &[u32; 8]) -> [u32; 8]
    ensures { result ≡ tuple_maximum a.now b.now }
{
    let mut maxima = [0; 8];
    for k in 0..8 {
        maxima[k] = a[k].max(b[k]);
    }
    maxima
}

// The multiples by q, where all are within the bound.
pub fn multiply_all(a: &[u32; 8], q: u32) -> Option<[u32; 8]>
    ensures { result ≡ bounded (tuple_multiple q a.now) }
{
    let mut multiples = [0; 8];
    for k in 0..8 {
        let multiple = u64::from(q) * u64::from(a[k]);
        if multiple > u64::from(EXPONENT_BOUND) {
            return None;
        }
        multiples[k] = multiple as u32;
    }
    Some(multiples)
}

// The power of p, or the first number above the bound where the power passes it.
pub fn capped_power(p: u8, e: u8) -> u32
    ensures { result ≡ min (p ^ e) (exponent_bound + 1) }
{
    let cap = EXPONENT_BOUND + 1;
    let mut power = 1;
    for _k in 0..e {
        power = (power * u32::from(p)).min(cap);
    }
    power
}

// From the first entry on, the greater exponent being greater. Two places at a time are compared as one number.
#[inline]
pub fn compare_first(a: &[u32; 8], b: &[u32; 8]) -> Ordering
    ensures { result ≡ first_cmp a.now b.now }
{
    for k in 0..4 {
        let x = word(a[2 * k + 1], a[2 * k]);
        let y = word(b[2 * k + 1], b[2 * k]);
        if x != y {
            return x.cmp(&y);
        }
    }
    Ordering::Equal
}

// From the last entry on, the smaller exponent being greater. Two places at a time are compared as one number.
#[inline]
pub fn compare_last(a: &[u32; 8], b: &[u32; 8]) -> Ordering
    ensures { result ≡ last_cmp a.now b.now }
{
    for k in 0..4 {
        let x = word(a[6 - 2 * k], a[7 - 2 * k]);
        let y = word(b[6 - 2 * k], b[7 - 2 * k]);
        if x != y {
            return y.cmp(&x);
        }
    }
    Ordering::Equal
}

// Two exponents as one number, the second one counting most. Over neighbours it is one load.
#[inline(always)]
fn word(low: u32, high: u32) -> u64
    ensures { result ≡ pair_word low high }
{
    u64::from(low) + 4_294_967_296 * u64::from(high)
}
