// Problems.
use crate::{Ideal, Names, Query};
use fm_poly::Ring;
use sqlite_items::Items;

/// A problem: a ring with the names of its variables, ideals, and queries on them.
#[derive(Drop)]
pub struct Problem {
    pub ring: Ring,
    pub vars: Names,
    pub ideals: Items<Ideal>,
    pub queries: Items<Query>,
}
