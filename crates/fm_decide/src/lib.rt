// The answers to a problem: the plan of each query, and the report of them all.
// A report costs what its plans cost, and a step for each byte of it.
#![tactic(auto)]

mod answering;
mod answers;
mod class;
mod counting;
mod counts;
mod ended;
mod ext;
mod ideals;
mod invert;
pub mod laws;
mod map;
mod member;
mod printing;
mod resolution;
mod root;
mod support;
mod zero;

pub use answering::answer;
pub use answers::Answers;
pub use counting::count;
pub use counts::Counts;
