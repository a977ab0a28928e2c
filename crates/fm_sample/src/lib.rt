// The problem that is drawn from a number: twenty monomial ideals in four variables over GF(2), and three queries on each.
// It takes some 340 draws, and memory for what it holds.
#![tactic(auto)]

mod draws;
mod ideals;
mod monomials;
mod queries;
mod sampling;
#[cfg(test)]
mod tests;

pub use sampling::sample;
