// Terms of vectors of polynomials over GF(p), and falling lists of them. A term takes a few words; a comparison looks at its component
// and then at its monomial.
#![tactic(auto)]

mod vterm;

pub use vterm::VTerm;
