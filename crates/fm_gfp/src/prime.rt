// The listed primes, and arithmetic modulo them.
ghost use Rattle.std.specs.Prelude.{◌%◌, ◌*◌, ◌+◌, ◌-◌, ◌<◌, ◌≡◌};
ghost use Rattle.fm_gfp.specs.Primes.{prime_of, prime_value};

use crate::gf::Gf;

/// A prime of the list.
#[derive(Clone, Copy, Debug, PartialEq, Eq)]
pub enum Prime {
    Two,
    Three,
    Five,
    Seven,
    Eleven,
    Thirteen,
    Seventeen,
    Nineteen,
    TwentyThree,
    TwentyNine,
    ThirtyOne,
}

impl Prime {
    /// The prime of the list that `n` is.
    pub fn of(n: u64) -> Option<Prime>
        ensures { result ≡ prime_of n }
    {
        match n {
            2 => Some(Prime::Two),
            3 => Some(Prime::Three),
            5 => Some(Prime::Five),
            7 => Some(Prime::Seven),
            11 => Some(Prime::Eleven),
            13 => Some(Prime::Thirteen),
            17 => Some(Prime::Seventeen),
            19 => Some(Prime::Nineteen),
            23 => Some(Prime::TwentyThree),
            29 => Some(Prime::TwentyNine),
            31 => Some(Prime::ThirtyOne),
            _ => None,
        }
    }

    pub fn value(self) -> u8
        ensures { result ≡ prime_value self }
    {
        match self {
            Prime::Two => 2,
            Prime::Three => 3,
            Prime::Five => 5,
            Prime::Seven => 7,
            Prime::Eleven => 11,
            Prime::Thirteen => 13,
            Prime::Seventeen => 17,
            Prime::Nineteen => 19,
            Prime::TwentyThree => 23,
            Prime::TwentyNine => 29,
            Prime::ThirtyOne => 31,
        }
    }

    /// The residue of `n`.
    pub fn element(self, n: u64) -> Gf
        ensures exact { result ≡ n % prime_value self }
        ensures below { result < prime_value self }
    {
        Gf::of((n % u64::from(self.value())) as u8)
    }

    pub fn add(self, a: Gf, b: Gf) -> Gf
        requires a_below { a < prime_value self }
        requires b_below { b < prime_value self }
        ensures exact { result ≡ (a + b) % prime_value self }
        ensures below { result < prime_value self }
    {
        Gf::of((a.number() + b.number()) % self.value())
    }

    pub fn sub(self, a: Gf, b: Gf) -> Gf
        requires a_below { a < prime_value self }
        requires b_below { b < prime_value self }
        ensures exact { result ≡ (a + (prime_value self - b)) % prime_value self }
        ensures below { result < prime_value self }
    {
        Gf::of((a.number() + (self.value() - b.number())) % self.value())
    }

    pub fn mul(self, a: Gf, b: Gf) -> Gf
        requires a_below { a < prime_value self }
        requires b_below { b < prime_value self }
        ensures exact { result ≡ (a * b) % prime_value self }
        ensures below { result < prime_value self }
    {
        let product = u16::from(a.number()) * u16::from(b.number());
        Gf::of((product % u16::from(self.value())) as u8)
    }

    pub fn neg(self, a: Gf) -> Gf
        requires { a < prime_value self }
        ensures exact { result ≡ (prime_value self - a) % prime_value self }
        ensures below { result < prime_value self }
    {
        Gf::of((self.value() - a.number()) % self.value())
    }

    /// The inverse, found by trying each residue in turn.
    pub fn inverse(self, a: Gf) -> Gf
        requires a_below { a < prime_value self }
        requires not_zero { 0 < a }
        ensures one { (a * result) % prime_value self ≡ 1 }
        ensures below { result < prime_value self }
    {
        for k in 1..self.value() {
            if self.mul(a, Gf::of(k)) == Gf::of(1) {
                return Gf::of(k);
            }
        }
        unreachable!()
    }
}
