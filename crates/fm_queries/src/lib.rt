// The plans of queries on the limit, as programs: Ext with its chain of kernels, and what a query asks of the stable kernel. Each runs the tasks
// of its plan in their order, with the units that are left; it costs what the calls of its tasks cost, and nothing is computed twice.
#![tactic(auto)]

pub mod base;
pub mod class;
pub mod coboundaries;
pub(crate) mod comparing;
pub(crate) mod duals;
pub mod invert;
pub mod map;
#[cfg(test)]
mod map_tests;
pub mod moving;
pub mod support;
pub mod testing;
#[cfg(test)]
mod tests;
pub mod unanswered;
pub mod zero;

pub use base::{Base, compute_base, compute_base_of};
pub use class::{Class, decide_class};
pub use coboundaries::is_zero_at;
pub use invert::{Inverting, decide_inverting};
pub use map::{Map, decide_map};
pub use moving::move_class;
pub use support::{Support, compute_support};
pub use testing::test_class;
pub use unanswered::{Refusal, Unanswered};
pub use zero::{Zero, decide_zero};
