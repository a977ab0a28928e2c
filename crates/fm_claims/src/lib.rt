// What the lines of a certificate claim in their places, and what a certificate is to show, by a program: the table of claims, followed row by row.
// A claim is made in time and memory of the numbers and polynomials that it names; no value of a part is formed.
#![tactic(auto)]

pub(crate) mod annihilating;
pub(crate) mod answering;
pub(crate) mod chained;
pub mod claimed;
pub mod claiming;
pub(crate) mod colons;
pub(crate) mod deciding;
pub(crate) mod found;
pub(crate) mod further;
pub mod goals;
pub(crate) mod inverting;
pub(crate) mod link;
pub(crate) mod linking;
pub(crate) mod mapping;
pub(crate) mod membership;
pub(crate) mod numbers;
pub(crate) mod problems;
pub(crate) mod resolving;
pub(crate) mod roots;
pub(crate) mod source;
pub(crate) mod told;
pub(crate) mod tools;

pub use claimed::{Claim, Claimed};
pub use claiming::claim;
pub use goals::goal_for;
