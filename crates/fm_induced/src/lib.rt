// Maps that are induced by inclusions of ideals: their matrices in the coordinates of both sides, and whether they are zero or one to one in the
// limit. The matrix costs a product and one division for each of its columns; the tests cost a preimage and one division a column.
#![tactic(auto)]

pub mod containing;
pub mod fibres;
pub(crate) mod joins;
pub mod matrices;
pub mod onto_maps;
#[cfg(test)]
mod tests;

pub use containing::first_not_contained;
pub use fibres::{Fibre, is_one_to_one};
pub use matrices::{is_zero, phi};
pub use onto_maps::{Onto, is_onto};
