// The standard writer of certificates, as a definition with its law; no program, and so no cost.
//
// The notions (specs/):
//   Writing  which parts and logs stand before a line, and the numbers that they get; a certificate as a list of claims
//   Small    lines whose numbers are below 2^64
//   Said     claims that can be said under an answer, and certificates along which its verdict is true
//
// The laws:
//   certificates_are_said  a query with its answer and its certificate can be written in a report, and all that it states holds
#![tactic(auto)]

pub mod laws;
