// By what lines of certificates show what they claim.

/// Generators of a kernel or of a preimage: by a log, and by the parts X and W.
#[derive(Clone, Copy)]
pub struct Generated {
    pub log: u64,
    pub x: u64,
    pub w: u64,
}

/// A column that lies outside of an image: by a log, and by the members that reduce the column in turn.
#[derive(Drop)]
pub struct Excluded {
    pub log: u64,
    pub column: u64,
    pub by: Vec<u64>,
}
