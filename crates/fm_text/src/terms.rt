// Terms of polynomials, with their signs.
ghost use Rattle.std.specs.Prelude.{◌≡◌, ◌<◌, ◌∷◌, [], IfSome, MatchOption, length};
ghost use Rattle.fm_text.specs.Factors.{sign_of_byte, signed, terms_of};

use crate::sign::Sign;
use fm_words::Mark;

/// The text of a term and of those after it, with the sign of the first.
#[derive(Clone, Copy)]
pub struct TermText<'a> {
    pub sign: Sign,
    pub text: &'a [u8],
}

fn sign_of(byte: u8) -> Option<Sign>
    ensures { result ≡ sign_of_byte byte }
{
    match byte {
        b'+' => Some(Sign::Plus),
        b'-' => Some(Sign::Minus),
        _ => None,
    }
}

/// The text of the first term, and what comes after it.
pub fn first_term(from: TermText<'_>) -> (&[u8], Option<TermText<'_>>)
    ensures terms { MatchOption result.1 (signed from.entry.sign from.entry.text.now ≡ record { sign = from.entry.sign; text = result.0.now } ∷ [])
        (λ more. signed from.entry.sign from.entry.text.now ≡ record { sign = from.entry.sign; text = result.0.now } ∷ signed more.sign more.text.now) }
    ensures shorter { IfSome result.1 (λ more. length more.text.now < length from.entry.text.now) }
{
    let text = from.text;
    let mut at = 0;
    'bytes: while at < text.len() {
        if let Some(sign) = sign_of(text[at]) {
            let more = TermText {
                sign,
                text: &text[at + 1..],
            };
            return (&text[..at], Some(more));
        }
        at += 1;
    }
    (text, None)
}

/// The terms of a text, before which one sign may stand.
pub fn all_terms(text: &[u8]) -> TermText<'_>
    ensures { signed result.sign result.text.now ≡ terms_of text.entry.now }
{
    let mut from = text;
    'blanks: loop {
        let Some((byte, rest)) = from.split_first() else {
            return TermText {
                sign: Sign::Plus,
                text: from,
            };
        };
        if !Mark::Blank.is(*byte) {
            return match sign_of(*byte) {
                Some(sign) => TermText { sign, text: rest },
                None => TermText {
                    sign: Sign::Plus,
                    text: from,
                },
            };
        }
        from = rest;
    }
}
