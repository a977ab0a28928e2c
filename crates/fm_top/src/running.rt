// The top call.
ghost use Rattle.std.specs.Prelude.{◌≡◌, ◌≢◌, ◌≤◌, ◌⊎◌, IfSome, map, string_bytes, true, false};
ghost use Rattle.std.specs.Io.KnownBytes.{Appends, Keeps, IsAtEnd};
ghost use Rattle.fm_base.specs.Causes.{Rose};
ghost use Rattle.fm_base.specs.Parts.{AppendsPrefix, ConsumesAtMost};
ghost use Rattle.fm_report.specs.Choices.{VerdictsHoldForEveryChoice, VerdictsHoldForEveryChoiceSince};
ghost use Rattle.fm_report.specs.Holding.{VerdictsHold, VerdictsHoldSince};
ghost use Rattle.fm_top.specs.Words.{is_call, is_check, reads_text};
ghost use Rattle.fm_top.specs.Output.{determined_output, sampled, text_limit, usage};
ghost use Rattle.fm_top.specs.Statuses.{IsPlain, IsQuiet};

use crate::answering::answer_source;
use crate::call::Call;
use crate::reply::write_reply;
use crate::sampling::summary;
use crate::words::call_of_words;
use fm_base::{Sink, Source, Status};
use std::alloc::Global;

/// Does all that the program does: reads the words, then the source whole, then the text, and writes what it answers.
///
/// `words` are the words after the program's name. Everything that is to be written is built before the first write, so that
/// writing takes no memory. Where memory runs out before, the status is `Memory`; no clause says when.
pub fn run<S: Source, K: Sink>(
    alloc: Global,
    words: &[String],
    source: &mut S,
    sink: &mut K,
) -> Status
    // from the bytes in to the bytes out
    ensures output { IsPlain result → IfSome (determined_output (map string_bytes words.now) (S.left source.old))
        (λ output. (result ≡ output.status) × Appends (K.taken sink.old) (K.taken sink.new) output.bytes) }
    ensures prefix { IfSome (determined_output (map string_bytes words.now) (S.left source.old))
        (λ output. AppendsPrefix (K.taken sink.old) (K.taken sink.new) output.bytes) }
    ensures quiet { IsQuiet result → Keeps (K.taken sink.old) (K.taken sink.new) }

    // the words alone tell whether the usage line is written, and how a run may end that wrote its answer
    ensures usage { is_call (map string_bytes words.now) ≡ false
        → (result ≡ Status.Usage) ⊎ ((result ≡ Status.WriteFault) ⊎ (result ≡ Status.Memory)) }
    ensures no_usage { is_call (map string_bytes words.now) ≡ true → result ≢ Status.Usage }
    ensures refused { result ≡ Status.Refused → is_check (map string_bytes words.now) ≡ true }
    ensures unanswered { result ≡ Status.Unanswered → is_check (map string_bytes words.now) ≡ false }
    ensures problem { result ≡ Status.Problem → is_check (map string_bytes words.now) ≡ false }

    // the headline: what the sink took states only verdicts that hold in the limit, however the run ends
    ensures verdicts { VerdictsHoldSince (K.taken sink.old) (K.taken sink.new) }

    // and it holds for every choice of resolutions, Frobenius lifts and lifts of the identity
    ensures independent { VerdictsHoldForEveryChoiceSince (K.taken sink.old) (K.taken sink.new) }

    // what an accepted certificate states holds in the limit, whoever wrote it, and for every choice of resolutions and lifts
    ensures accepted { is_check (map string_bytes words.now) ≡ true → result ≡ Status.Done → IfSome (S.left source.old) VerdictsHold }
    ensures accepted_independent { is_check (map string_bytes words.now) ≡ true → result ≡ Status.Done
        → IfSome (S.left source.old) VerdictsHoldForEveryChoice }

    // the source: read to its end, or not at all
    ensures unread { reads_text (map string_bytes words.now) ≡ false → source.new ≡ source.old }
    ensures drained { reads_text (map string_bytes words.now) ≡ true → (IsQuiet result → ⊥) → IsAtEnd (S.left source.new) }

    // the causes
    ensures read_fault { result ≡ Status.ReadFault → Rose (S.faults source.old) (S.faults source.new) }
    ensures early { result ≡ Status.ReadFault → ConsumesAtMost (S.left source.old) (S.left source.new) (text_limit (map string_bytes words.now)) }
    ensures write_fault { result ≡ Status.WriteFault → Rose (K.faults sink.old) (K.faults sink.new) }
    ensures source_later { S.faults source.old ≤ S.faults source.new }
    ensures sink_later { K.faults sink.old ≤ K.faults sink.new }
{
    match call_of_words(alloc, words) {
        Ok(Some(Call::Decide(units))) => answer_source(alloc, Call::Decide(units), source, sink),
        Ok(Some(Call::Check)) => answer_source(alloc, Call::Check, source, sink),
        Ok(Some(Call::Sample(number))) => write_summary(alloc, number, sink),
        Ok(None) => write_usage(sink),
        Err(_) => Status::Memory,
    }
}

// Writes how the queries of a sample end.
fn write_summary<K: Sink>(alloc: Global, number: u32, sink: &mut K) -> Status
    ensures plain { IsPlain result → (result ≡ (sampled number).status) × Appends (K.taken sink.old) (K.taken sink.new) (sampled number).bytes }
    ensures prefix { AppendsPrefix (K.taken sink.old) (K.taken sink.new) (sampled number).bytes }
    ensures quiet { IsQuiet result → Keeps (K.taken sink.old) (K.taken sink.new) }
    ensures no_usage { result ≢ Status.Usage }
    ensures unrefused { result ≢ Status.Refused }
    ensures read { result ≢ Status.ReadFault }
    ensures verdicts { VerdictsHoldSince (K.taken sink.old) (K.taken sink.new) }
    ensures write { result ≡ Status.WriteFault → Rose (K.faults sink.old) (K.faults sink.new) }
    ensures later { K.faults sink.old ≤ K.faults sink.new }
{
    match summary(alloc, number) {
        Ok(reply) => write_reply(sink, reply.status, &reply.bytes),
        Err(_) => Status::Memory,
    }
}

fn write_usage<K: Sink>(sink: &mut K) -> Status
    ensures plain { IsPlain result → (result ≡ usage.status) × Appends (K.taken sink.old) (K.taken sink.new) usage.bytes }
    ensures prefix { AppendsPrefix (K.taken sink.old) (K.taken sink.new) usage.bytes }
    ensures either { (result ≡ Status.Usage) ⊎ (result ≡ Status.WriteFault) }
    ensures loud { IsQuiet result → ⊥ }
    ensures verdicts { VerdictsHoldSince (K.taken sink.old) (K.taken sink.new) }
    ensures write { result ≡ Status.WriteFault → Rose (K.faults sink.old) (K.faults sink.new) }
    ensures later { K.faults sink.old ≤ K.faults sink.new }
{
    write_reply(
        sink,
        Status::Usage,
        b"usage: fmod decide [--budget N] | check | sample N\n",
    )
}
