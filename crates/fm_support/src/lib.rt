// The support of Ext: its annihilator, and whether a polynomial inverts it. The annihilator costs one preimage of a matrix with g * g rows and
// 1 + g * c columns, for a matrix with g rows and c columns; each colon costs one preimage, and one division for each of its columns.
#![tactic(auto)]

pub mod annihilating;
pub mod blocks;
pub(crate) mod colons;
pub mod inverting;
pub(crate) mod powers;
pub mod scalars;
#[cfg(test)]
mod tests;

pub use annihilating::annihilator;
pub use colons::newest;
pub use inverting::{Inverted, invert};
