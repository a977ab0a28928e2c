// Why the text of a polynomial was not read.
use thiserror::Error;

/// Why the text of a polynomial in a certificate was not read.
#[derive(Debug, Drop, Error)]
pub enum PolyFault {
    #[error("no polynomial")]
    Form,
    #[error("an exponent passes the bound")]
    Exponent,
    #[error("out of memory")]
    Memory,
}
