// The units of work that are left.
ghost use Rattle.std.specs.Prelude.{MatchBool, ◌+◌, ◌≡◌};

use std::marker::Model;

/// The units of work that are left.
#[derive(Debug, Drop)]
pub struct Work {
    left: u32,
}

impl Model for Work {
    ghost use Rattle.std.specs.Prelude.{ℕ};

    ghost Value = { ℕ };

    ghost view = { λ w. w.left };
}

impl Work {
    pub fn new(units: u32) -> Work
        ensures { result ≡ units }
    {
        Work { left: units }
    }

    pub fn left(&self) -> u32
        ensures { result ≡ self.now }
    {
        self.left
    }

    /// Spends a unit, where one is left.
    pub fn spend(&mut self) -> bool
        ensures { MatchBool result (self.old ≡ self.new + 1) ((self.old ≡ 0) × (self.new ≡ 0)) }
    {
        if self.left == 0 {
            return false;
        }
        self.left -= 1;
        true
    }
}
