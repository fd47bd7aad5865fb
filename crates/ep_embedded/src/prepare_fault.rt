//! Why no answers are made.

use thiserror::Error;

/// Why no answers are made. The node is as it was.
#[derive(Clone, Copy, Debug, PartialEq, Eq, Error)]
pub enum PrepareFault {
    /// Memory was refused, or an answer would be longer than answers can be.
    #[error("E1 memory")]
    Memory,
    /// Something was taken since the last `ready`: `synced` says that what is lent is on the disk, and then `ready` lends it.
    #[error("not all is lent")]
    Unlent,
    /// Those that were made before weren't reported.
    #[error("what was made before wasn't told")]
    Unreported,
}
