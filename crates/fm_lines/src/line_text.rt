// Lines as far as they are read without a problem.
use crate::Row;

/// A line of the head, which is read by the grammar of problems; a query with its number and the text of its question, read likewise; or a row.
#[derive(Drop)]
pub enum LineText<'a> {
    Head(&'a [u8]),
    Question { number: u64, question: &'a [u8] },
    Row(Row<'a>),
}
