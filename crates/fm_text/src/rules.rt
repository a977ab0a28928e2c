// What a polynomial is read by.
use fm_poly::Ring;

/// The ring of a polynomial that is read, the names of its variables, and the greatest exponent of a variable in a term.
#[derive(Clone, Copy)]
pub struct Rules<'a> {
    pub ring: Ring,
    pub names: &'a [String],
    pub bound: u32,
}
