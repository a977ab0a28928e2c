// The laws of the algebra.

pub mod examples;
pub mod heads;
pub mod matrices;
pub mod polynomials;
pub mod terms;
pub mod twists;
