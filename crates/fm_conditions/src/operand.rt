// Matrices that conditions speak of.
use fm_mat::Matrix;
use fm_poly::Poly;

/// A part of the table by its number, or a matrix that is made of such, or that is printed. None of it is formed before a condition asks for its
/// value.
#[derive(Drop)]
pub enum Operand {
    Part(u32),
    Given(Matrix),
    /// The unit matrix with so many rows.
    Unit(u32),
    /// The unit matrix with so many rows as one column, column after column.
    UnitColumn(u32),
    /// As many copies of this part along the diagonal as it has rows.
    Blocks(u32),
    /// f^k times the unit matrix with so many rows.
    Power { f: Poly, k: u64, rows: u32 },
    Twist(Box<Operand>, u8),
    Flip(Box<Operand>),
    Beside(Box<Operand>, Box<Operand>),
    Times(Box<Operand>, Box<Operand>),
}
