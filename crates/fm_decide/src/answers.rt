// Answers to a problem.

/// The report on the queries of a problem, and whether each of them is answered or refused.
#[derive(Drop)]
pub struct Answers {
    pub all: bool,
    pub report: Vec<u8>,
}
