// Numbers in decimal digits.
ghost use Rattle.std.specs.Prelude.{◌≡◌};
ghost use Rattle.std.specs.List.{list_all};
ghost use Rattle.fm_words.specs.Words.{is_digit as is_digit_byte, is_exact as is_exact_word, is_number as is_number_word, small, value};

fn is_digit(byte: u8) -> bool
    ensures { result ≡ is_digit_byte byte }
{
    b'0' <= byte && byte <= b'9'
}

fn are_digits(word: &[u8]) -> bool
    ensures { result ≡ list_all is_digit_byte word.now }
{
    let mut from = word;
    'digits: loop {
        let Some((byte, rest)) = from.split_first() else {
            return true;
        };
        if !is_digit(*byte) {
            return false;
        }
        from = rest;
    }
}

/// Whether the word is one or more decimal digits.
pub fn is_number(word: &[u8]) -> bool
    ensures { result ≡ is_number_word word.now }
{
    match word.split_first() {
        Some((first, rest)) => is_digit(*first) && are_digits(rest),
        None => false,
    }
}

/// Whether the word is not empty and has no leading zero.
pub fn is_exact(word: &[u8]) -> bool
    ensures { result ≡ is_exact_word word.now }
{
    match word.split_first() {
        Some((first, rest)) => rest.is_empty() || *first != b'0',
        None => false,
    }
}

/// The number that the digits are, where it is below 2^64.
pub fn number(digits: &[u8]) -> Option<u64>
    ensures { result ≡ small (value digits.now) }
{
    let mut n = 0u64;
    let mut from = digits;
    'digits: loop {
        let Some((byte, rest)) = from.split_first() else {
            return Some(n);
        };
        let Some(tens) = n.checked_mul(10) else {
            return None;
        };
        let Some(sum) = tens.checked_add(u64::from(byte.saturating_sub(b'0'))) else {
            return None;
        };
        n = sum;
        from = rest;
    }
}
