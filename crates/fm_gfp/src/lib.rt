// The fields GF(p) for the listed primes: each operation is a few machine instructions, and none takes memory.
#![tactic(auto)]

pub mod gf;
pub mod laws;
pub mod prime;
#[cfg(test)]
mod tests;

pub use gf::Gf;
pub use prime::Prime;
