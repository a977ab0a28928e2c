// Logs of completions, replayed entry by entry: which entries are free steps, which members they keep, and whether a log is whole.
// A head reduction passes once over the vector and the member. An input or a pair is found taken, or treated, in logarithmic time; that a log is
// whole takes this time for each input and each two members.
#![tactic(auto)]

pub(crate) mod heads;
pub(crate) mod numbers;
pub mod reducing;
pub mod refusal;
pub mod replay;
pub mod replaying;
pub(crate) mod rest;
pub(crate) mod stepping;
#[cfg(test)]
mod tests;

pub use reducing::reduce_by;
pub use refusal::{Fault, Refusal};
pub use replay::Replay;
pub use replaying::{Replayed, replay_log};
