// Kinds of faults of a problem text.
ghost use Rattle.std.specs.Prelude.{◌≡◌};
ghost use Rattle.fm_problem.specs.Faults.{fault_text};

use fm_text::TextFault;
use fm_words::ReadError;

/// What is wrong with a line of a problem text.
#[derive(Clone, Copy, Debug, PartialEq, Eq)]
pub enum FaultKind {
    /// The line hasn't the form or the place of any line.
    Syntax,
    /// A name in use isn't defined.
    UnknownName,
    /// A variable or an ideal is defined a second time.
    Repeated,
    /// A degree is above the number of variables.
    Range,
    /// The characteristic is no prime of the list.
    NotPrime,
    /// A number or a count is above a limit.
    Limit,
}

impl FaultKind {
    /// The words that name the fault.
    pub fn text(self) -> &'static str
        ensures { result.now ≡ fault_text self }
    {
        match self {
            FaultKind::Syntax => "syntax",
            FaultKind::UnknownName => "unknown name",
            FaultKind::Repeated => "repeated name",
            FaultKind::Range => "degree out of range",
            FaultKind::NotPrime => "not a listed prime",
            FaultKind::Limit => "above a limit",
        }
    }
}

impl From<TextFault> for FaultKind {
    ghost use Rattle.std.specs.Prelude.{◌≡◌};
    ghost use Rattle.fm_problem.specs.Faults.{kind_of};

    ghost from_gives = { λ fault kind. kind ≡ kind_of fault };

    fn from(fault: TextFault) -> FaultKind {
        match fault {
            TextFault::Syntax => FaultKind::Syntax,
            TextFault::UnknownName => FaultKind::UnknownName,
            TextFault::Limit => FaultKind::Limit,
        }
    }
}

impl From<FaultKind> for ReadError<FaultKind> {
    ghost use Rattle.std.specs.Prelude.{◌≡◌};
    ghost use Rattle.fm_words.specs.declared.read_error.ReadError.TheVariants.{Fault};

    ghost from_gives = { λ kind e. e ≡ Fault kind };

    fn from(kind: FaultKind) -> ReadError<FaultKind> {
        ReadError::Fault(kind)
    }
}
