// The texts of polynomials and vectors: how they are printed, and the one grammar by which they are read. A text of a certificate is one of
// this grammar without blanks. Printing and reading take a few steps for each byte; reading sorts the terms that it read.
//
// The notions (specs/):
//   Texts         the printed form of polynomials and vectors
//   Factors       the form: signs cut a text into terms, and stars cut a term into factors
//   Polynomials   which polynomial a text spells, or its first fault
//   SumOfTerms    the sum of written terms, as falling terms with nonzero coefficients
//   Certificates  the polynomials of certificates: no blanks, and form before exponents
//
// The laws:
//   printed_polynomials_are_read_back  a printed polynomial is read back, by the grammar of certificates
//   printed_numbers_are_read_back      so is a printed number
//   printed_texts_are_unique           no text is printed for two polynomials, and none for two vectors
//   spelled_polynomials_are_of_the_ring  a polynomial that a text spells is of the ring
//   sums_of_written_terms              the sum of written terms is what they mean, in the one form that is kept
#![tactic(auto)]

mod certificates;
mod factors;
mod forms;
pub mod laws;
mod places;
mod poly_fault;
mod polynomials;
mod printing;
mod rules;
mod sign;
mod terms;
#[cfg(test)]
mod tests;
mod text_fault;

pub use certificates::read_poly;
pub use forms::{are_polynomials, is_polynomial};
pub use places::variable_place;
pub use poly_fault::PolyFault;
pub use polynomials::read_polynomial;
pub use printing::push_poly;
pub use rules::Rules;
pub use text_fault::TextFault;
