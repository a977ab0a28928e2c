// Why a text was not read.
use std::alloc::{AllocError, AllocFailed};

/// Why a text was not read: its first fault, or want of memory.
#[derive(Debug, Drop)]
pub enum ReadError<F> {
    Fault(F),
    Memory,
}

impl<F: Drop> From<AllocError> for ReadError<F> {
    ghost use Rattle.std.specs.Prelude.{◌≡◌};
    ghost use Rattle.fm_words.specs.declared.read_error.ReadError.TheVariants.{Memory};

    ghost from_gives = { λ _ e. e ≡ Memory };

    fn from(_error: AllocError) -> ReadError<F> {
        ReadError::Memory
    }
}

impl<F: Drop, T: Drop> From<AllocFailed<T>> for ReadError<F> {
    ghost use Rattle.std.specs.Prelude.{◌≡◌};
    ghost use Rattle.fm_words.specs.declared.read_error.ReadError.TheVariants.{Memory};

    ghost from_gives = { λ _ e. e ≡ Memory };

    fn from(_error: AllocFailed<T>) -> ReadError<F> {
        ReadError::Memory
    }
}
