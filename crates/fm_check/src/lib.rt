// Certificates, checked by a program: whether the text of a report is valid, exactly as the judgement of reports defines it.
//
// A text is gone through once, line by line, and a line is judged by what stands before it: in time for its bytes, for the values of the parts that its
// conditions compare, and for the reductions that an entry of a log names. Of a query the parts, the logs and the names are kept until it is done; of
// the report, its head and a few numbers.
#![tactic(auto)]

pub(crate) mod answers;
pub(crate) mod between;
pub(crate) mod block_rows;
pub(crate) mod certificate;
pub(crate) mod certificates;
pub mod checked;
pub mod checking;
pub(crate) mod heads;
pub(crate) mod judging;
#[cfg(test)]
mod kind_tests;
pub mod laws;
pub(crate) mod log_rows;
pub(crate) mod report;
pub(crate) mod stage;
pub(crate) mod stages;
#[cfg(test)]
mod tests;
#[cfg(test)]
mod text_tests;

pub use checked::Checked;
pub use checking::check;
