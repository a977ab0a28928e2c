// Problem texts: the grammar, the first fault, and the reader. Reading takes a few steps for each byte, and memory for what stands in the
// text.
#![tactic(auto)]

mod fault_kind;
mod ideal;
mod ideals;
mod keyword;
pub mod laws;
mod limits;
mod name;
mod names;
mod places;
mod polynomials;
mod problem;
mod problem_error;
mod queries;
mod query;
mod reading;
mod statements;
#[cfg(test)]
mod tests;

pub use fault_kind::FaultKind;
pub use ideal::Ideal;
pub use name::{Name, Names};
pub use problem::Problem;
pub use problem_error::ProblemError;
pub use query::Query;
pub use reading::{add_line, order_in, read_problem, read_query, read_ring, with_order};
