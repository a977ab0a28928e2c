// Why an input was not read whole.
use thiserror::Error;

/// Why `read_all` has no bytes to give.
#[derive(Debug, Drop, Error)]
pub enum ReadError {
    #[error("a read failed")]
    ReadFault,
    #[error("the input is longer than the limit")]
    TooLong,
    #[error("out of memory")]
    Memory,
}
