// Calls of the program.

/// What the words ask for.
#[derive(Clone, Copy, Debug, PartialEq, Eq)]
pub enum Call {
    /// The answers to a problem, with this number of units of work for each query.
    Decide(u32),
    /// What is found of a certificate.
    Check,
    /// The summary of the problem that is drawn from this number.
    Sample(u32),
}
