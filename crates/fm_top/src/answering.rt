// Calls that read a text.
ghost use Rattle.std.specs.Prelude.{◌≡◌, ◌≢◌, ◌≤◌, IfOk, IfSome, length, false, true};
ghost use Rattle.std.specs.Io.KnownBytes.{Appends, IsAtEnd, Keeps};
ghost use Rattle.fm_base.specs.Causes.{Rose};
ghost use Rattle.fm_base.specs.Parts.{AppendsPrefix, ConsumesAtMost};
ghost use Rattle.fm_report.specs.Holding.{VerdictsHoldSince};
ghost use Rattle.fm_top.specs.Words.{checks, reads};
ghost use Rattle.fm_top.specs.Output.{HoldThroughout, answered, determined_within, limit_of};
ghost use Rattle.fm_top.specs.Statuses.{IsOfCall, IsPlain, IsQuiet, IsWritten};

use crate::call::Call;
use crate::certifying::checked;
use crate::deciding::decide;
use crate::reply::{Reply, write_reply};
use crate::sampling::summary;
use fm_base::{ReadError, Sink, Source, Status, read_all};
use std::alloc::{AllocError, Global};

// The longest problem text and the longest certificate, in bytes.
const PROBLEM_LIMIT: usize = 1_048_576;

const CERTIFICATE_LIMIT: usize = 268_435_456;

// Reads the text of a call whole, and writes what it gives.
pub fn answer_source<S: Source, K: Sink>(
    alloc: Global,
    call: Call,
    source: &mut S,
    sink: &mut K,
) -> Status
    requires { reads (Some call) ≡ true }
    ensures output { IsPlain result → IfSome (determined_within (Some call) (S.left source.old))
        (λ output. (result ≡ output.status) × Appends (K.taken sink.old) (K.taken sink.new) output.bytes) }
    ensures prefix { IfSome (determined_within (Some call) (S.left source.old))
        (λ output. AppendsPrefix (K.taken sink.old) (K.taken sink.new) output.bytes) }
    ensures quiet { IsQuiet result → Keeps (K.taken sink.old) (K.taken sink.new) }
    ensures no_usage { result ≢ Status.Usage }
    ensures refused { result ≡ Status.Refused → checks (Some call) ≡ true }
    ensures unanswered { result ≡ Status.Unanswered → checks (Some call) ≡ false }
    ensures problem { result ≡ Status.Problem → checks (Some call) ≡ false }
    ensures verdicts { VerdictsHoldSince (K.taken sink.old) (K.taken sink.new) }
    ensures drained { (IsQuiet result → ⊥) → IsAtEnd (S.left source.new) }
    ensures read_fault { result ≡ Status.ReadFault → Rose (S.faults source.old) (S.faults source.new) }
    ensures early { result ≡ Status.ReadFault → ConsumesAtMost (S.left source.old) (S.left source.new) (limit_of (Some call)) }
    ensures write_fault { result ≡ Status.WriteFault → Rose (K.faults sink.old) (K.faults sink.new) }
    ensures source_later { S.faults source.old ≤ S.faults source.new }
    ensures sink_later { K.faults sink.old ≤ K.faults sink.new }
{
    match read_all(alloc, source, limit(call)) {
        Ok(text) => match reply_to(alloc, call, &text) {
            Ok(reply) => write_reply(sink, reply.status, &reply.bytes),
            Err(_) => Status::Memory,
        },
        Err(ReadError::ReadFault) => Status::ReadFault,
        Err(ReadError::TooLong) => Status::TooLong,
        Err(ReadError::Memory) => Status::Memory,
    }
}

// The longest text of a call, in bytes; a sample has none.
fn limit(call: Call) -> usize
    ensures is { result ≡ limit_of (Some call) }
    ensures small { result ≤ 268435456 }
{
    match call {
        Call::Decide(_) => PROBLEM_LIMIT,
        Call::Check => CERTIFICATE_LIMIT,
        Call::Sample(_) => 0,
    }
}

// What a call gives on a text within its limit.
fn reply_to(alloc: Global, call: Call, text: &[u8]) -> Result<Reply, AllocError>
    requires { length text.now ≤ limit_of (Some call) }
    ensures written { IfOk result (λ r. IsWritten r.status) }
    ensures of_call { IfOk result (λ r. IsOfCall call r.status) }
    ensures status { IfOk result (λ r. r.status ≡ (answered call text.now).status) }
    ensures bytes { IfOk result (λ r. r.bytes.items ≡ (answered call text.now).bytes) }
    ensures verdicts { IfOk result (λ r. HoldThroughout r.bytes.items) }
{
    match call {
        Call::Decide(units) => decide(alloc, text, units),
        Call::Check => checked(alloc, text),
        Call::Sample(number) => summary(alloc, number),
    }
}
