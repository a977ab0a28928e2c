// A report under check.
use fm_problem::Problem;

/// A report behind its head: its version, what the head says, the number of its queries so far, and how many of them have an answer and how many have
/// none.
#[derive(Drop)]
pub(crate) struct Report {
    pub version: u64,
    pub problem: Problem,
    pub count: u64,
    pub verdicts: u64,
    pub passed: u64,
}
