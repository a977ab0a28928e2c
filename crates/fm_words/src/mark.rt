// The bytes that cut a text.
ghost use Rattle.std.specs.Prelude.{◌≡◌};
ghost use Rattle.fm_words.specs.Parts.{is_mark};

/// The bytes that cut a text into parts; a blank is a space or a tab.
#[derive(Clone, Copy, Debug, PartialEq, Eq)]
pub enum Mark {
    Feed,
    Blank,
    Comma,
    Equals,
    Star,
    Caret,
    Open,
    Close,
}

impl Mark {
    /// Whether the byte is of this kind.
    pub fn is(self, byte: u8) -> bool
        ensures { result ≡ is_mark self byte }
    {
        match self {
            Mark::Feed => byte == b'\n',
            Mark::Blank => byte == b' ' || byte == b'\t',
            Mark::Comma => byte == b',',
            Mark::Equals => byte == b'=',
            Mark::Star => byte == b'*',
            Mark::Caret => byte == b'^',
            Mark::Open => byte == b'(',
            Mark::Close => byte == b')',
        }
    }
}
