// Polynomials over GF(p): a ring and a list of terms, strictly falling in the ring's order, with nonzero coefficients.
//
// What the operations cost, for a and b terms with a <= b:
// - a sum: at most a + b comparisons of monomials, by one merge;
// - `from_terms`: about a * log2(a) comparisons, by merges of halves;
// - a product: about a * b * log2(a) comparisons. A term of the shorter factor times the longer one falls already, so
//   these rows are merged by halves;
// - a multiple and a twist: a steps, with no comparison;
// - a power by k: k products.
// Each result is a list of its own. An operation reads its operands in place and copies none of them.
#![tactic(auto)]

pub(crate) mod collecting;
pub mod laws;
pub(crate) mod merging;
pub(crate) mod multiplying;
pub mod poly;
pub mod poly_error;
pub mod ring;
pub(crate) mod scaling;
pub mod term;
#[cfg(test)]
mod tests;
pub(crate) mod twisting;

pub use poly::Poly;
pub use poly_error::PolyError;
pub use ring::Ring;
pub use term::Term;
