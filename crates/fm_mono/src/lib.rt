// Monomials and the three monomial orders.
#![tactic(auto)]

pub(crate) mod entries;
pub mod exponent;
pub mod laws;
pub mod mono;
pub mod order;
#[cfg(test)]
mod tests;

pub use exponent::EXPONENT_BOUND;
pub use mono::Mono;
pub use order::Order;
