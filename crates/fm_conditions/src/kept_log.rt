// Logs that have ended.
use fm_vec::Vector;

/// A log that was complete at its end: the number of the part whose graph was completed, and the members.
#[derive(Drop)]
pub struct KeptLog {
    pub part: u32,
    pub members: Vec<Vector>,
}
