// Kinds of faults of a polynomial's text.
use fm_words::ReadError;

/// What is wrong with the text of a polynomial.
#[derive(Clone, Copy, Debug, PartialEq, Eq)]
pub enum TextFault {
    /// It hasn't the form of a polynomial.
    Syntax,
    /// A name is none of the variables.
    UnknownName,
    /// A number or an exponent is above a limit.
    Limit,
}

impl From<TextFault> for ReadError<TextFault> {
    ghost use Rattle.std.specs.Prelude.{◌≡◌};
    ghost use Rattle.fm_words.specs.declared.read_error.ReadError.TheVariants.{Fault};

    ghost from_gives = { λ fault e. e ≡ Fault fault };

    fn from(fault: TextFault) -> ReadError<TextFault> {
        ReadError::Fault(fault)
    }
}
