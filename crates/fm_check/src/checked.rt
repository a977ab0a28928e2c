// What a check of a report finds.
use fm_conditions::Why;

/// The report is valid, with so many queries that have an answer and so many that have none; or its first bad line, by its number from 1 on, with the
/// reason.
#[derive(Clone, Copy)]
pub enum Checked {
    Accepted { verdicts: u64, passed: u64 },
    Refused { line: u64, why: Why },
}
