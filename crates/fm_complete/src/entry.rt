// Logs of completions.

/// What an entry takes up: input k; the S-vector of the members A and B; or nothing, where the pair of A and B is skipped by the member K.
#[derive(Clone, Copy, Debug, PartialEq, Eq)]
pub enum Start {
    Input(u32),
    Pair(u32, u32),
    Skip(u32, u32, u32),
}

/// A step of a completion: what is taken up, the numbers of the members that reduce it, and whether the rest is kept.
#[derive(Drop)]
pub struct Entry {
    pub start: Start,
    pub by: Vec<u32>,
    pub keep: bool,
}
