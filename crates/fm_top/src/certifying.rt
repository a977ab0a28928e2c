// What is found of a certificate.
ghost use Rattle.std.specs.Prelude.{IfOk, ◌≡◌};
ghost use Rattle.fm_conditions.specs.Reasons.{reason_of};
ghost use Rattle.fm_top.specs.Output.{HoldThroughout, accepted_line, checked as finding, reason_text, refused_line};
ghost use Rattle.fm_top.specs.Statuses.{IsOfCertificate, IsWritten};

use crate::reply::Reply;
use fm_base::Status;
use fm_check::{Checked, check};
use fm_conditions::Why;
use itoa::Buffer;
use std::alloc::{AllocError, Global};

// What a text gives as a certificate.
#[tactic(auto, unfolding(crate::specs::Output::checked))]
pub fn checked(alloc: Global, text: &[u8]) -> Result<Reply, AllocError>
    ensures written { IfOk result (λ r. IsWritten r.status) }
    ensures of_certificate { IfOk result (λ r. IsOfCertificate r.status) }
    ensures status { IfOk result (λ r. r.status ≡ (finding text.now).status) }
    ensures bytes { IfOk result (λ r. r.bytes.items ≡ (finding text.now).bytes) }
    ensures verdicts { IfOk result (λ r. HoldThroughout r.bytes.items) }
{
    match check(alloc, text) {
        Ok(Checked::Accepted { verdicts, passed }) => acceptance(alloc, verdicts, passed),
        Ok(Checked::Refused { line, why }) => refusal(alloc, line, why),
        Err(_) => Err(AllocError),
    }
}

fn acceptance(alloc: Global, verdicts: u64, passed: u64) -> Result<Reply, AllocError>
    ensures written { IfOk result (λ r. IsWritten r.status) }
    ensures of_certificate { IfOk result (λ r. IsOfCertificate r.status) }
    ensures status { IfOk result (λ r. r.status ≡ Status.Done) }
    ensures bytes { IfOk result (λ r. r.bytes.items ≡ accepted_line verdicts passed) }
{
    let mut bytes = b"accepted verdicts ".to_vec(alloc)?;
    let mut digits = Buffer::new();
    bytes.extend_from_slice(digits.format(verdicts).as_bytes())?;
    bytes.extend_from_slice(b" passed ")?;
    bytes.extend_from_slice(digits.format(passed).as_bytes())?;
    bytes.push(b'\n')?;
    Ok(Reply {
        status: Status::Done,
        bytes,
    })
}

fn refusal(alloc: Global, line: u64, why: Why) -> Result<Reply, AllocError>
    ensures written { IfOk result (λ r. IsWritten r.status) }
    ensures of_certificate { IfOk result (λ r. IsOfCertificate r.status) }
    ensures status { IfOk result (λ r. r.status ≡ Status.Refused) }
    ensures bytes { IfOk result (λ r. r.bytes.items ≡ refused_line line (reason_of why)) }
{
    let mut bytes = b"refused line ".to_vec(alloc)?;
    let mut digits = Buffer::new();
    bytes.extend_from_slice(digits.format(line).as_bytes())?;
    bytes.extend_from_slice(b" ")?;
    bytes.extend_from_slice(reason(why).as_bytes())?;
    bytes.push(b'\n')?;
    Ok(Reply {
        status: Status::Refused,
        bytes,
    })
}

// The word for what is wrong with a line.
fn reason(why: Why) -> &'static str
    ensures { result.now ≡ reason_text (reason_of why) }
{
    match why {
        Why::Truncated => "truncated",
        Why::Form => "form",
        Why::Exponents => "exponents",
        Why::Reference => "reference",
        Why::Shape => "shape",
        Why::Depth => "depth",
        Why::Value => "value",
        Why::BadEntry => "entry",
        Why::BadLog => "log",
        Why::Reduction => "reduction",
    }
}
