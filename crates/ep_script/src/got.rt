//! What reading one line gave.

/// What reading one line gave.
#[derive(Clone, Copy, Debug, PartialEq, Eq)]
pub(crate) enum Got {
    /// A line of at most 8,193 bytes.
    Line,
    /// The source was over.
    End,
    /// A line of more than 8,193 bytes.
    TooLong,
}
