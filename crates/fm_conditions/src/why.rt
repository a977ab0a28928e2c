// Why lines are bad.
use std::alloc::{AllocError, AllocFailed};

/// Why a line is bad.
#[derive(Clone, Copy, Debug, PartialEq, Eq)]
pub enum Why {
    Truncated,
    Form,
    Exponents,
    Reference,
    Shape,
    Depth,
    Value,
    BadEntry,
    BadLog,
    Reduction,
}

/// Memory ran out, or a line is bad.
#[derive(Clone, Copy, Debug, PartialEq, Eq)]
pub enum Refused {
    Memory,
    Bad(Why),
}

impl From<AllocError> for Refused {
    ghost use Rattle.std.specs.Prelude.{◌≡◌};
    ghost use Rattle.fm_conditions.specs.declared.why.Refused.TheVariants.{Memory};

    ghost from_gives = { λ _ e. e ≡ Memory };

    fn from(_error: AllocError) -> Refused {
        Refused::Memory
    }
}

impl<T: Drop> From<AllocFailed<T>> for Refused {
    ghost use Rattle.std.specs.Prelude.{◌≡◌};
    ghost use Rattle.fm_conditions.specs.declared.why.Refused.TheVariants.{Memory};

    ghost from_gives = { λ _ e. e ≡ Memory };

    fn from(_error: AllocFailed<T>) -> Refused {
        Refused::Memory
    }
}
