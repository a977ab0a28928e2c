// What is to be written, and how the run ends then.
ghost use Rattle.std.specs.Prelude.{◌≡◌, ◌≤◌, ◌⊎◌};
ghost use Rattle.std.specs.Io.KnownBytes.{Appends};
ghost use Rattle.fm_base.specs.Causes.{Rose};
ghost use Rattle.fm_base.specs.Parts.{AppendsPrefix};
ghost use Rattle.fm_top.specs.Statuses.{IsPlain, IsQuiet, IsWritten};

use fm_base::{Failed, Sink, Status, write_all};

#[derive(Drop)]
pub struct Reply {
    pub status: Status,
    pub bytes: Vec<u8>,
}

// Writes the bytes, and answers the status unless a write fails.
pub fn write_reply<K: Sink>(sink: &mut K, status: Status, bytes: &[u8]) -> Status
    requires { IsWritten status }
    ensures plain { IsPlain result → (result ≡ status) × Appends (K.taken sink.old) (K.taken sink.new) bytes.now }
    ensures prefix { AppendsPrefix (K.taken sink.old) (K.taken sink.new) bytes.now }
    ensures either { (result ≡ status) ⊎ (result ≡ Status.WriteFault) }
    ensures loud { IsQuiet result → ⊥ }
    ensures write { result ≡ Status.WriteFault → Rose (K.faults sink.old) (K.faults sink.new) }
    ensures later { K.faults sink.old ≤ K.faults sink.new }
{
    match write_all(sink, bytes) {
        Ok(()) => status,
        Err(Failed) => Status::WriteFault,
    }
}
