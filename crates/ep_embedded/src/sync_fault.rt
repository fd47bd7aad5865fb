//! Why bytes aren't counted as on the disk.

use thiserror::Error;

/// Why bytes aren't counted as on the disk. The node is as it was.
#[derive(Clone, Copy, Debug, PartialEq, Eq, Error)]
pub enum SyncFault {
    /// Nothing is lent.
    #[error("nothing is lent")]
    NotLent,
    /// So many bytes aren't all that are lent.
    #[error("these aren't all the bytes that are lent")]
    NotAll,
}
