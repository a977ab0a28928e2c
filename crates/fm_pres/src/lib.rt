// The table of the parts of a certificate: each part is a matrix that is given or made of earlier parts, and has a number; and the numbers that
// lines have named for one ideal.
//
// What the calls cost:
// - `new`, `is_part` and `shape` take no memory and no time that depends on the table;
// - `add` takes the form over and looks at the shapes and depths of its operands alone; each column that is picked is compared once;
// - `value` forms the value of a part, and of those that it is made of, at most once each, by one operation on matrices; a matrix that is
//   given is copied then. The calls are nested at most as deep as the part is, and no part is deeper than 1,000.
#![tactic(auto)]

pub mod block;
pub(crate) mod evaluating;
pub mod form;
pub(crate) mod judging;
pub(crate) mod node;
pub mod part_fault;
pub mod shape;
pub mod table;
#[cfg(test)]
mod tests;

pub use block::Block;
pub use form::Form;
pub use part_fault::PartFault;
pub use shape::Shape;
pub use table::Table;
