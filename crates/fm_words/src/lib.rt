// Texts of lines and words: the bytes that cut a text, words between blanks, numbers, names, and numbered lines.
#![tactic(auto)]

pub mod lines;
pub mod mark;
pub mod names;
pub mod numbers;
pub mod parts;
pub mod read_error;
pub mod words;

pub use lines::{Line, Lines, end_of, next_line};
pub use mark::Mark;
pub use names::is_name;
pub use numbers::{is_exact, is_number, number};
pub use parts::{first_part, two_parts};
pub use read_error::ReadError;
pub use words::{is_blank, next_word, one_word, three_words, two_words};
