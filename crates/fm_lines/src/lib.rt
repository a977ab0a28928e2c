// The lines of reports and certificates, read by a program: exactly what the grammar of lines says of a text.
// A line is read in a few steps for each of its bytes, and takes memory for the numbers, polynomials and vectors that stand in it.
#![tactic(auto)]

mod answers;
mod claims;
mod columns;
pub mod ending;
mod endings;
mod first_words;
mod flags;
mod generators;
pub mod line_text;
mod lists;
mod names;
mod numbers;
pub mod part_form;
mod parts;
mod polynomials;
mod reading;
mod report;
pub mod row;
mod rows;
pub mod shown;
mod texts;
mod vectors;
mod words;

pub use ending::Ending;
pub use line_text::LineText;
pub use part_form::PartForm;
pub use reading::read_line;
pub use report::read_report;
pub use row::Row;
pub use shown::{Excluded, Generated};
