// Resolutions of ideals, and membership: matrices d_1, d_2, .. with their completed graphs, and whether a polynomial lies in the ideal.
// Each matrix costs the trim of the syzygies of the one before it and a completion; the test of membership is one division.
#![tactic(auto)]

pub mod laws;
pub mod membership;
pub mod resolution;
pub(crate) mod rows;

pub use membership::{Membership, decide_member};
pub use resolution::{Resolution, resolve};
pub use rows::one_column;
