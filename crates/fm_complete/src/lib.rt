// Division and completion of vectors by the standard run (Buchberger's algorithm for submodules, with the chain criterion).
// A head reduction passes once over the vector and the member; a vector of more than a hundred terms is kept in buckets, where it passes
// over a share of both. Finding the member is linear in the heads of one component, the pairs of a new member in the members, and a skip in
// the heads of one component, each times the logarithm of the pending pairs.
#![tactic(auto)]

pub(crate) mod borrowing;
pub(crate) mod completing;
pub(crate) mod completion;
pub(crate) mod critical_pair;
pub mod dividing;
pub mod division;
pub(crate) mod entry;
#[cfg(test)]
mod graph_tests;
pub(crate) mod head_index;
pub mod laws;
pub(crate) mod long;
pub(crate) mod pairing;
pub(crate) mod pairs;
pub(crate) mod pending;
pub(crate) mod pending_pair;
pub(crate) mod reducing;
pub mod remainder;
pub(crate) mod skipping;
pub(crate) mod spreading;
pub(crate) mod starting;
pub mod step;
pub(crate) mod stepping;
#[cfg(test)]
mod tests;

pub use borrowing::{borrowed, complete_all};
pub use completing::complete;
pub use completion::Basis;
pub use critical_pair::CriticalPair;
pub use dividing::divide;
pub use division::Division;
pub use entry::{Entry, Start};
pub use remainder::{Remainder, reduced_rest, rest_of};
pub use step::Step;
pub use stepping::{cancel, divides, step_to};
