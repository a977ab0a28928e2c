// The certificates of what is found, as they are written: for each kind of query the lines of its certificate, in their order. Lines are collected as data
// that point to what is found, and nothing of it is copied; the text is written once.
#![tactic(auto)]

pub(crate) mod appending;
pub(crate) mod bases;
pub(crate) mod blocks;
pub(crate) mod chains;
pub(crate) mod classes;
pub(crate) mod colons;
pub(crate) mod exts;
pub(crate) mod inside;
pub(crate) mod joins;
pub(crate) mod maps;
pub(crate) mod operands;
pub mod queries;
pub(crate) mod reading;
pub(crate) mod resolutions;
pub(crate) mod series;

pub use queries::{
    certify_class, certify_ext, certify_inverting, certify_map, certify_member, certify_resolution,
    certify_root, certify_support, certify_zero,
};
