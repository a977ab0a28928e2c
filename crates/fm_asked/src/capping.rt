// Texts without their exponents.
ghost use Rattle.std.specs.Prelude.{IfOk, OnOk, ◌&&◌, ◌++◌, ◌∷◌, ◌≡◌, [], if◌then◌else◌};
ghost use Rattle.fm_judge.specs.Judging as definitions;

use std::alloc::{AllocError, Global};

/// The text with 0 for each exponent that is written. It is at most one byte longer than the text.
pub fn without_exponents(alloc: Global, text: &[u8]) -> Result<Vec<u8>, AllocError>
    ensures { IfOk result (λ capped. capped.items ≡ definitions.without_exponents text.now) }
{
    let mut capped = Vec::new(alloc);
    let mut after = false;
    let mut seen = false;
    let mut left = text;
    'bytes: loop {
        let Some((byte, later)) = left.split_first() else {
            push_zero(&mut capped, seen)?;
            return Ok(capped);
        };
        left = later;
        if after && is_digit(*byte) {
            seen = true;
            continue;
        }
        push_zero(&mut capped, seen)?;
        capped.push(*byte)?;
        after = *byte == b'^';
        seen = false;
    }
}

fn is_digit(byte: u8) -> bool
    ensures { result ≡ definitions.is_digit byte }
{
    b'0' <= byte && byte <= b'9'
}

/// 0 for an exponent whose digits were left out.
fn push_zero(capped: &mut Vec<u8>, seen: bool) -> Result<(), AllocError>
    ensures { OnOk result (capped.new.items ≡ capped.old.items ++ (if seen then 48 ∷ [] else [])) }
{
    if seen {
        capped.push(b'0')?;
    }
    Ok(())
}
