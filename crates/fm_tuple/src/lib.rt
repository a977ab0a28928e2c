// Exponent tuples: the exponents of a product, a quotient, a least common multiple and a twist of monomials, and their laws.
#![tactic(auto)]

pub mod laws;
