// The answer to a call for a sample.
ghost use Rattle.std.specs.Prelude.{IfOk, OnOk, decimal, ◌++◌, ◌≡◌};
ghost use Rattle.fm_top.specs.Output.{HoldThroughout, sampled, summary_line as summary_text};
ghost use Rattle.fm_top.specs.Statuses.{IsOfText, IsWritten};

use crate::reply::Reply;
use crate::words::DEFAULT_BUDGET;
use fm_base::Status;
use fm_decide::{Counts, count};
use fm_sample::sample;
use itoa::Buffer;
use std::alloc::{AllocError, Global};

// How the queries of a sample end, each with the default number of units.
#[tactic(auto, unfolding(crate::specs::Output::sampled))]
pub fn summary(alloc: Global, number: u32) -> Result<Reply, AllocError>
    ensures written { IfOk result (λ r. IsWritten r.status) }
    ensures of_text { IfOk result (λ r. IsOfText r.status) }
    ensures status { IfOk result (λ r. r.status ≡ (sampled number).status) }
    ensures bytes { IfOk result (λ r. r.bytes.items ≡ (sampled number).bytes) }
    ensures verdicts { IfOk result (λ r. HoldThroughout r.bytes.items) }
{
    let problem = sample(alloc, number)?;
    let counts = count(alloc, &problem, DEFAULT_BUDGET)?;
    Ok(Reply {
        status: if counts.unanswered == 0 {
            Status::Done
        } else {
            Status::Unanswered
        },
        bytes: summary_line(alloc, number, problem.queries.len(), &counts)?,
    })
}

fn summary_line(
    alloc: Global,
    number: u32,
    queries: usize,
    counts: &Counts,
) -> Result<Vec<u8>, AllocError>
    ensures { IfOk result (λ line. line.items ≡ summary_text number queries counts.now) }
{
    let mut line = Vec::new(alloc);
    push_count(&mut line, b"sample ", u64::from(number))?;
    push_count(&mut line, b" queries ", queries as u64)?;
    push_count(&mut line, b" yes ", u64::from(counts.yes))?;
    push_count(&mut line, b" no ", u64::from(counts.no))?;
    push_count(&mut line, b" unanswered ", u64::from(counts.unanswered))?;
    line.push(b'\n')?;
    Ok(line)
}

fn push_count(out: &mut Vec<u8>, words: &[u8], n: u64) -> Result<(), AllocError>
    ensures { OnOk result (out.new.items ≡ out.old.items ++ (words.now ++ decimal n)) }
{
    let mut digits = Buffer::new();
    out.extend_from_slice(words)?;
    out.extend_from_slice(digits.format(n).as_bytes())?;
    Ok(())
}
