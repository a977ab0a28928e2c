// A sink in memory that fails where it is told to.
use crate::{Failed, Sink};
use std::alloc::{AllocError, Global};
use std::marker::Model;

/// A sink that keeps what it takes in memory, reserved when it is made.
///
/// Calls are numbered from 1; a call fails, and is counted, exactly where its number stands in `failing` or no room is left. Any
/// other call takes the least of `piece`, the slice's length and the room left. Both counts stop at the greatest u64.
#[derive(Drop)]
pub struct MemorySink {
    taken: Vec<u8>,
    room: usize,
    piece: usize,
    failing: Vec<u64>,
    calls: u64,
    faults: u64,
}

impl Model for MemorySink {
    ghost use Rattle.std.specs.Prelude.{◌+◌, ◌≤◌, vec_len, vec_capacity};
    ghost use Rattle.fm_base.specs.Store.{Store};

    ghost Value = { Store };

    ghost view = { λ s. record { taken = s.taken.items; room = s.room; piece = s.piece; failing = s.failing.items; calls = s.calls; faults = s.faults } };

    ghost invariant = { λ s. (1 ≤ s.piece) × (vec_len s.taken + s.room ≤ vec_capacity s.taken) };
}

impl MemorySink {
    ghost use Rattle.std.specs.Prelude.{◌≡◌, ◌≤◌, [], IfOk};

    pub fn new(
        alloc: Global,
        room: usize,
        piece: usize,
        failing: Vec<u64>,
    ) -> Result<MemorySink, AllocError>
        requires { 1 ≤ piece }
        ensures { IfOk result (λ s. s ≡ record { taken = []; room = room; piece = piece; failing = failing.items; calls = 0; faults = 0 }) }
    {
        let taken = Vec::with_capacity(alloc, room)?;
        Ok(MemorySink {
            taken,
            room,
            piece,
            failing,
            calls: 0,
            faults: 0,
        })
    }

    /// The bytes taken so far.
    pub fn taken(&self) -> &[u8]
        ensures { result.now ≡ self.now.taken }
    {
        self.taken.as_slice()
    }
}

impl Sink for MemorySink {
    ghost use Rattle.std.specs.Prelude.{◌≡◌, ◌↔◌, ◌+◌, ◌<◌, ◌⊎◌, Some, length, min, Contains, IsErr, IfOk, OnOk, OnErr};
    ghost use Rattle.std.specs.Io.{WritesAtMost};
    ghost use Rattle.std.specs.Io.KnownBytes.{WriteAppends};
    ghost use Rattle.fm_base.specs.Causes.{HasCause};
    ghost use Rattle.fm_base.specs.Feed.{counted};
    ghost use Rattle.fm_base.specs.Store.{Store};

    ghost taken = { λ s. Some s.taken };

    ghost faults = { λ s. s.faults };

    fn write(&mut self, bytes: &[u8]) -> Result<usize, Failed>
        requires { 0 < length bytes.now }
        ensures bound { WritesAtMost result bytes.now }
        ensures some { IfOk result (λ n. 0 < n) }
        ensures bytes { WriteAppends (Some self.old.taken) (Some self.new.taken) result bytes.now }
        ensures cause { HasCause self.old.faults self.new.faults result }

        // exactly which calls fail, and what the others take
        ensures fails { IsErr result ↔ (Contains self.old.failing (counted self.old.calls) ⊎ (self.old.room ≡ 0)) }
        ensures gives { IfOk result (λ n. n ≡ min (min self.old.piece (length bytes.now)) self.old.room) }
        ensures room { IfOk result (λ n. self.new.room + n ≡ self.old.room) }
        ensures room_err { OnErr result (self.new.room ≡ self.old.room) }
        ensures counts { self.new.calls ≡ counted self.old.calls }
        ensures faults_ok { OnOk result (self.new.faults ≡ self.old.faults) }
        ensures faults_err { OnErr result (self.new.faults ≡ counted self.old.faults) }
        ensures piece { self.new.piece ≡ self.old.piece }
        ensures failing { self.new.failing ≡ self.old.failing }
    {
        self.calls = self.calls.saturating_add(1);
        if self.room == 0 || self.failing.contains(&self.calls) {
            self.faults = self.faults.saturating_add(1);
            return Err(Failed);
        }
        let n = self.piece.min(bytes.len()).min(self.room);
        if self.taken.extend_from_slice(&bytes[..n]).is_err() {
            unreachable!();
        }
        self.room -= n;
        Ok(n)
    }
}
