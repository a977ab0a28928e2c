// Conditions of certificate lines, judged: whether the shapes of all of them fit, and then whether each holds, or the first reason why not.
//
// What the calls cost:
// - shapes are compared before any value is formed;
// - a part's value is formed once and kept in the table; sums of blocks, products and twists that a condition makes of parts are formed for it
//   and given back;
// - two matrices are compared entry by entry;
// - no completion runs: syzygies are read from the members of a log that was replayed, and a vector is reduced by the members that are named.
#![tactic(auto)]

pub(crate) mod comparing;
pub mod condition;
pub(crate) mod evaluating;
pub(crate) mod excluding;
pub(crate) mod forming;
pub(crate) mod generating;
pub(crate) mod holding;
pub mod judging;
pub mod kept_log;
pub(crate) mod listing;
pub mod operand;
pub(crate) mod powers;
pub(crate) mod shaping;
pub(crate) mod syzygies;
pub(crate) mod valuing;
pub mod why;

pub use condition::Condition;
pub use judging::judge;
pub use kept_log::KeptLog;
pub use operand::Operand;
pub use why::{Refused, Why};
