// Completions under way, and what they end in.
use crate::Entry;
use crate::head_index::HeadIndex;
use crate::pending::Pending;
use crate::spreading::Tail;
use fm_vec::Vector;

/// The members of a completion that ended, and its log.
#[derive(Drop)]
pub struct Basis {
    pub members: Vec<Vector>,
    pub log: Vec<Entry>,
}

/// A completion under way: the members with their heads, the tails of the first members, the pending pairs in their order, and the log.
#[derive(Drop)]
pub(crate) struct Completion {
    pub members: Vec<Vector>,
    pub heads: HeadIndex,
    pub tails: Vec<Tail>,
    pub pending: Pending,
    pub log: Vec<Entry>,
}
