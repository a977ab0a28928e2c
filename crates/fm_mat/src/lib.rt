// Matrices of polynomials: a ring, a number of rows, and a list of columns. Either number may be 0.
//
// What the operations cost, for a matrix with m rows and c columns:
// - `new`, `ring`, `rows`, `cols`, `column` and `columns` take no memory and no time that depends on the size;
// - `copy`, `flip`, `beside`, `stack` and `pick` copy each entry of the result once, and `unit` makes n * n entries;
// - `times` with k columns on the right forms m * c * k products of entries and as many sums, column by column;
// - `twist` twists m * c entries.
// Each result is a matrix of its own. An operation reads its operands in place.
#![tactic(auto)]

pub mod column;
pub(crate) mod copying;
pub(crate) mod flipping;
pub mod matrix;
pub(crate) mod multiplying;
pub(crate) mod picking;
pub(crate) mod stacking;
#[cfg(test)]
mod tests;
pub(crate) mod twisting;
pub(crate) mod units;

pub use column::Column;
pub use matrix::Matrix;
