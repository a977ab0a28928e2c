// Why a polynomial was not formed.
use std::alloc::{AllocError, AllocFailed};
use thiserror::Error;

/// Why a polynomial was not formed.
#[derive(Debug, Drop, Error)]
pub enum PolyError {
    #[error("an exponent passes the bound")]
    Exponent,
    #[error("out of memory")]
    Memory,
}

impl From<AllocError> for PolyError {
    ghost use Rattle.std.specs.Prelude.{◌≡◌};
    ghost use Rattle.fm_poly.specs.declared.poly_error.PolyError.TheVariants.{Memory};

    ghost from_gives = { λ _ e. e ≡ Memory };

    fn from(_error: AllocError) -> PolyError {
        PolyError::Memory
    }
}

impl<T: Drop> From<AllocFailed<T>> for PolyError {
    ghost use Rattle.std.specs.Prelude.{◌≡◌};
    ghost use Rattle.fm_poly.specs.declared.poly_error.PolyError.TheVariants.{Memory};

    ghost from_gives = { λ _ e. e ≡ Memory };

    fn from(_error: AllocFailed<T>) -> PolyError {
        PolyError::Memory
    }
}
