// The forms of parts, as lines say them.
use fm_poly::Poly;

/// A matrix that is given by its rows and columns, or made of earlier parts. Parts and columns count from 1.
#[derive(Drop)]
pub enum PartForm {
    Given { rows: u64, columns: Vec<Vec<Poly>> },
    /// The Frobenius twist by p^times, of at most 16 times.
    Twist { part: u64, times: u8 },
    Flip { part: u64 },
    Beside { left: u64, right: u64 },
    Stack { above: u64, below: u64 },
    Times { left: u64, right: u64 },
    Pick { part: u64, columns: Vec<u64> },
}
