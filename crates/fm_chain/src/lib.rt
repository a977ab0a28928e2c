// Chains of kernels of generating morphisms, and how many moves kill a class. A member of a chain costs a twist, a preimage and one division for
// each of its columns; coordinates and a stage cost the twist of a graph and one division.
#![tactic(auto)]

pub mod chain;
pub(crate) mod chaining;
pub mod classes;
pub(crate) mod lifting_at;
pub(crate) mod links;
pub mod stages;
#[cfg(test)]
mod tests;
pub(crate) mod twists;

pub use chain::Chain;
pub use chaining::kernel_chain;
pub use classes::coordinates;
pub use lifting_at::lift_at;
pub use stages::{Killed, kill_stage};
pub use twists::twisted_matrix;
