// Elements of the fields.
ghost use Rattle.std.specs.Prelude.{◌≡◌};

use std::marker::Model;

/// An element of a field GF(p), by its residue. It doesn't know its prime: `Prime` computes with it.
#[derive(Clone, Copy, Debug, PartialEq, Eq)]
pub struct Gf {
    number: u8,
}

impl Model for Gf {
    ghost use Rattle.std.specs.Prelude.{ℕ};

    ghost Value = { ℕ };

    ghost view = { λ g. g.number };

    ghost inverse = { λ n. record { number = n } };
}

impl Gf {
    pub(crate) fn of(number: u8) -> Gf
        ensures { result ≡ number }
    {
        Gf { number }
    }

    /// The least residue.
    pub fn number(self) -> u8
        ensures { result ≡ self }
    {
        self.number
    }
}
