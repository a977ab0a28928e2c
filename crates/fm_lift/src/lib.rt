// Lifts through completed graphs: the lift of Frobenius and the lift of the identity along resolutions. Each matrix costs one product, and one
// division for each of its columns.
#![tactic(auto)]

pub mod frobenius;
pub mod identity;
pub(crate) mod kept;
pub mod steps;
#[cfg(test)]
mod tests;

pub use frobenius::frobenius_lift;
pub use identity::over_identity;
pub use steps::{lift_of_product, lift_through, product, twisted};
