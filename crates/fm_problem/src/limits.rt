// The limits of problem texts.

/// The greatest number of variables.
pub const VARIABLES: usize = 8;

/// The greatest length of a name, in bytes, where it is defined.
pub const NAME_BYTES: usize = 16;

/// The greatest number of ideals.
pub const IDEALS: usize = 100;

/// The greatest number of generators that are written for one ideal.
pub const GENERATORS: usize = 64;

/// The greatest number of queries.
pub const QUERIES: usize = 1_000;

/// The greatest stage of a class.
pub const STAGE: u8 = 16;

/// The greatest exponent of a variable in a written term.
pub const WRITTEN_EXPONENT: u32 = 1_000;
