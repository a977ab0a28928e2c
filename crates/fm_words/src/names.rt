// Names.
ghost use Rattle.std.specs.Prelude.{◌≡◌};
ghost use Rattle.std.specs.List.{list_all};
ghost use Rattle.fm_words.specs.Words.{is_letter as is_letter_byte, is_name as is_name_word, is_name_byte as is_byte_of_name};

fn is_letter(byte: u8) -> bool
    ensures { result ≡ is_letter_byte byte }
{
    (b'A' <= byte && byte <= b'Z') || (b'a' <= byte && byte <= b'z')
}

fn is_name_byte(byte: u8) -> bool
    ensures { result ≡ is_byte_of_name byte }
{
    is_letter(byte) || ((b'0' <= byte && byte <= b'9') || byte == b'_')
}

fn are_name_bytes(word: &[u8]) -> bool
    ensures { result ≡ list_all is_byte_of_name word.now }
{
    let mut from = word;
    'bytes: loop {
        let Some((byte, rest)) = from.split_first() else {
            return true;
        };
        if !is_name_byte(*byte) {
            return false;
        }
        from = rest;
    }
}

/// Whether the word is a letter, followed by letters, digits and `_`, all ASCII.
pub fn is_name(word: &[u8]) -> bool
    ensures { result ≡ is_name_word word.now }
{
    match word.split_first() {
        Some((first, rest)) => is_letter(*first) && are_name_bytes(rest),
        None => false,
    }
}
