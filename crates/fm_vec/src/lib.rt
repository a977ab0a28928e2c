// Vectors of polynomials over GF(p) as falling lists of terms.
#![tactic(auto)]

pub(crate) mod columns;
pub mod laws;
pub(crate) mod multiples;
pub(crate) mod terms;
#[cfg(test)]
mod tests;
pub mod vector;

pub use vector::Vector;
