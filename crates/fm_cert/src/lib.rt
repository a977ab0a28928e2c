// Lines of reports and certificates: what they say, how they are printed, and how they are read. The program writes them (`Line`, `End`,
// `push_head`, `push_query`) and numbers the matrices that they name (`Forms`); what it writes is what the table says.
// A line costs a step for each of its bytes, and a matrix that is named a comparison with those before it in its query.
//
// The notions (specs/):
//   Fields     the kinds of fields, what is said in one (`Value`), how it is printed (`printed`) and read (`read`); rows of words and fields
//   Kinds      the table: the row of each kind of line, and the kind of a line by its words (`kind_of`)
//   Statements how the lines of a head and of questions are printed, which are those of problem texts
//   Questions  the ideals and queries of a problem as such lines
//   Lines      a line (`Line`), its text (`line_text`), and the line that a text is (`line_of`)
//   Writable   which lines can be written over a ring
//   Naming     lines that name matrices, each part printed before the first line that names it
//   Ends, Said, Parts  what the program's ends, lines and matrices say
//   Pieces     what the program writes a line of
//
// The laws:
//   printed_lines_are_read_back  a line that can be written is read back as what it says, and holds no LF
#![tactic(auto)]

mod end;
mod forms;
mod grid;
mod heads;
pub mod laws;
mod line;
mod naming;
pub mod piece;
pub mod polynomials;
pub mod printing;
#[cfg(test)]
mod tests;
mod writing;

pub use end::End;
pub use grid::{Grid, Naming, Slot};
pub use heads::{push_head, push_query};
pub use line::Line;
pub use naming::Forms;
pub use piece::Piece;
pub use polynomials::push_vector;
pub use printing::{is_numbered, push_row, task_word};
pub use writing::push_lines;
