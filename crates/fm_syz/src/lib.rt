// Matrices with completed graphs: generators of the kernel of a matrix, which vectors lie in its image, and the solutions of those that do.
// A completed graph is made once and read in place: its syzygies cost a copy of their terms, and a lift one division by its members.
#![tactic(auto)]

pub(crate) mod blocks;
pub(crate) mod choosing;
pub(crate) mod column_vectors;
pub(crate) mod completing;
pub(crate) mod copying;
pub(crate) mod generating;
pub mod generators;
pub mod graph;
#[cfg(test)]
mod graph_tests;
pub mod inside;
pub(crate) mod kernels;
#[cfg(test)]
mod lift_tests;
pub mod lifted;
pub(crate) mod lifting;
pub(crate) mod lifts;
pub(crate) mod parts;
pub mod preimages;
pub(crate) mod solving;
pub(crate) mod spanning;
#[cfg(test)]
mod trim_tests;
pub(crate) mod trimming;
pub(crate) mod twisting;

pub use completing::{graph_columns, graph_of};
pub use generating::{generators_of, kernel, preimage};
pub use generators::Generators;
pub use graph::Graph;
pub use inside::{Inside, Outside, inside_of, whole_of};
pub use kernels::{lower_blocks, syzygies};
pub use lifted::{Lifted, lift};
pub use lifts::lift_columns;
pub use preimages::Preimage;
pub use spanning::is_in_image;
pub use trimming::trim;
pub use twisting::{twisted, twisted_members};
