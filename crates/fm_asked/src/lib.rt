// Certificates, checked by a program: the pieces of the check, each exactly as the judgement of a report defines it.
//
// What the calls cost:
// - a line is found and capped in a few steps for each of its bytes;
// - a part is added in time for the numbers and polynomials that stand in its line; no value is formed;
// - a matrix is named in a few steps;
// - a log is opened by forming the value of its part and the columns of its graph; an entry costs its reductions;
// - an end without an answer is compared with the words of each task of the plan.
#![tactic(auto)]

pub mod asked;
pub mod asked_logs;
pub mod asked_names;
pub mod capping;
pub mod datum;
pub(crate) mod forms;
pub mod lines;
pub mod logs;
pub mod naming;
pub(crate) mod narrowing;
pub mod parts;
pub mod tasks;

pub use asked::{Asked, part_row};
pub use asked_logs::{end_row, log_row};
pub use asked_names::{datum_row, name_row};
pub use capping::without_exponents;
pub use datum::{ideal_place, say_datum};
pub use lines::next_line;
pub use logs::{OpenLog, end_log, enter_row, open_log};
pub use naming::say_row;
pub use parts::add_part;
pub use tasks::may_end;
