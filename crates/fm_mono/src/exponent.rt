// The bound on the exponents of monomials.

/// The greatest exponent of a monomial. Eight times the bound fits `u32`, for the total degree.
pub const EXPONENT_BOUND: u32 = 16_777_215;
