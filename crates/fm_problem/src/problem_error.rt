// Why a problem text was not read.
ghost use Rattle.std.specs.Prelude.{◌≡◌};
ghost use Rattle.fm_problem.specs.Views.{error_at};

use crate::FaultKind;
use fm_words::ReadError;
use std::alloc::{AllocError, AllocFailed};
use thiserror::Error;

/// Why a problem text was not read: its first fault, or want of memory.
#[derive(Debug, Drop, Error)]
pub enum ProblemError {
    #[error("a fault in line {line}")]
    Fault { line: u32, kind: FaultKind },
    #[error("out of memory")]
    Memory,
}

impl From<AllocError> for ProblemError {
    ghost use Rattle.std.specs.Prelude.{◌≡◌};
    ghost use Rattle.fm_problem.specs.declared.problem_error.ProblemError.TheVariants.{Memory};

    ghost from_gives = { λ _ e. e ≡ Memory };

    fn from(_error: AllocError) -> ProblemError {
        ProblemError::Memory
    }
}

impl<T: Drop> From<AllocFailed<T>> for ProblemError {
    ghost use Rattle.std.specs.Prelude.{◌≡◌};
    ghost use Rattle.fm_problem.specs.declared.problem_error.ProblemError.TheVariants.{Memory};

    ghost from_gives = { λ _ e. e ≡ Memory };

    fn from(_error: AllocFailed<T>) -> ProblemError {
        ProblemError::Memory
    }
}

impl ProblemError {
    /// The error of a line as that of a text.
    pub(crate) fn at(line: u32, error: ReadError<FaultKind>) -> ProblemError
        ensures { result ≡ error_at line error }
    {
        match error {
            ReadError::Fault(kind) => ProblemError::Fault { line, kind },
            ReadError::Memory => ProblemError::Memory,
        }
    }
}
