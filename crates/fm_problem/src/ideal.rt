// Ideals of a problem.
use crate::Name;
use fm_poly::Poly;
use sqlite_items::Items;

/// An ideal with its name and its generators, of which none is zero.
#[derive(Drop)]
pub struct Ideal {
    pub name: Name,
    pub generators: Items<Poly>,
}
