// Bytes in memory that move into a reader's slice.
ghost use Rattle.std.specs.Prelude.{◌≡◌, ◌+◌, ◌≤◌, ◌++◌, drop, length, take};

// Copies `n` bytes, from place `at` on, to the front of `into`.
pub fn give(bytes: &[u8], at: usize, n: usize, into: &mut [u8])
    requires room { n ≤ length into.old }
    requires there { at + n ≤ length bytes.now }
    ensures { drop at bytes.now ≡ take n into.new ++ drop (at + n) bytes.now }
{
    into[..n].copy_from_slice(&bytes[at..at + n]);
}
