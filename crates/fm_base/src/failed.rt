// The refusal of a source or a sink.

/// A read or a write failed; what the source had left or the sink had taken is unchanged.
#[derive(Clone, Copy, Debug, PartialEq, Eq)]
pub struct Failed;
