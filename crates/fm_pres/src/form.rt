// Forms of parts.
use fm_mat::Matrix;

/// A matrix that is given, or made of earlier parts, which are named by their numbers. Parts and columns count from 1.
#[derive(Drop)]
pub enum Form {
    Given(Matrix),
    /// The Frobenius twist by p^power.
    Twist { part: u32, power: u8 },
    /// The transpose.
    Flip(u32),
    /// The second to the right of the first.
    Beside(u32, u32),
    /// The second below the first.
    Stack(u32, u32),
    Times(u32, u32),
    /// The columns with these numbers, in this order.
    Pick { part: u32, columns: Vec<u32> },
}
