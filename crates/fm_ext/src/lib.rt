// Ext with its generating morphism: generators of the cocycles and of the relations, and the matrix of a move in their coordinates.
// It costs the lift of Frobenius, a kernel, a preimage, and one division for each generator of the cocycles.
#![tactic(auto)]

pub(crate) mod cocycles;
pub mod exts;
pub mod identities;
pub(crate) mod lifting;
pub mod morphism;
pub mod presenting;
pub(crate) mod relations;
#[cfg(test)]
mod tests;

pub use exts::Ext;
pub use identities::identity_along;
pub use morphism::matrix_of;
pub use presenting::ext;
pub use relations::coboundaries;
