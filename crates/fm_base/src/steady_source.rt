// A source in memory that never fails.
use crate::moving::give;
use crate::{Failed, Source};
use std::marker::Model;

/// A source over bytes in memory that gives as much as the slice takes and never fails: its count of faults is the constant 0.
#[derive(Drop)]
pub struct SteadySource {
    bytes: Vec<u8>,
    at: usize,
}

impl Model for SteadySource {
    ghost use Rattle.std.specs.Prelude.{ℕ, List, ◌≤◌, drop, vec_len};

    ghost Value = { List ℕ };

    ghost view = { λ s. drop s.at s.bytes.items };

    ghost invariant = { λ s. s.at ≤ vec_len s.bytes };
}

impl SteadySource {
    ghost use Rattle.std.specs.Prelude.{◌≡◌};

    pub fn new(bytes: Vec<u8>) -> SteadySource
        ensures { result ≡ bytes.items }
    {
        SteadySource { bytes, at: 0 }
    }
}

impl Source for SteadySource {
    ghost use Rattle.std.specs.Prelude.{◌≡◌, ◌<◌, Some, length, min};
    ghost use Rattle.std.specs.Io.{ReadsAtMost};
    ghost use Rattle.std.specs.Io.KnownBytes.{ReadConsumes};
    ghost use Rattle.fm_base.specs.Causes.{HasCause};

    ghost left = { λ s. Some s };

    ghost faults = { λ _. 0 };

    fn read(&mut self, into: &mut [u8]) -> Result<usize, Failed>
        requires { 0 < length into.old }
        ensures bound { ReadsAtMost result into.new }
        ensures bytes { ReadConsumes (Some self.old) (Some self.new) result into.new }
        ensures cause { HasCause 0 0 result }

        // it never fails
        ensures gives { result ≡ Ok (min (length into.old) (length self.old)) }
    {
        let n = into.len().min(self.bytes.len() - self.at);
        give(&self.bytes, self.at, n, into);
        self.at += n;
        Ok(n)
    }
}
