// Why a form is no part.

/// Why a form is no part of a table.
#[derive(Clone, Copy, Debug, PartialEq, Eq)]
pub enum PartFault {
    /// A number is not that of an earlier part, or a picked column does not exist.
    Reference,
    /// The shapes of the operands do not fit, or the shape is too large.
    Shape,
    /// The part would be deeper than 1,000.
    Depth,
}
