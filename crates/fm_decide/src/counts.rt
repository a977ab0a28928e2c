// Counts of how queries end.

/// How many queries are answered with yes, how many with no, and how many ended in a task without an answer.
#[derive(Clone, Copy, Debug, PartialEq, Eq)]
pub struct Counts {
    pub yes: u32,
    pub no: u32,
    pub unanswered: u32,
}
