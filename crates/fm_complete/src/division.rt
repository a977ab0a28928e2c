// Divisions of vectors.
use fm_poly::Poly;
use fm_vec::Vector;

/// A division: the numbers of the members in the order in which they were taken, a quotient for each member, and the rest.
#[derive(Drop)]
pub struct Division {
    pub by: Vec<u32>,
    pub quotients: Vec<Poly>,
    pub rest: Vector,
}
