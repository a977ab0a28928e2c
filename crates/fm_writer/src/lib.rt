// Certificates written by the standard writer: their lines as data, and the text in which each part and each log that they name stands once, before
// the first line that names it. Text is appended to one buffer; a line costs its length, and a part the search of its form in a map.
#![tactic(auto)]

pub mod claim;
pub mod kinds;
pub mod operand;
#[cfg(test)]
mod tests;
pub mod text;
pub mod writer;

pub use claim::{Claim, Shown};
pub use kinds::{Excluding, Generating, Named};
pub use operand::{Operand, Whole};
pub use text::certificate;
pub use writer::Writer;
