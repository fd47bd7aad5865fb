//! Why a node says nothing.

use thiserror::Error;

/// Why a node says nothing. It is as it was.
#[derive(Clone, Copy, Debug, PartialEq, Eq, Error)]
pub enum ReportFault {
    /// Memory was refused, or an answer would be longer than answers can be.
    #[error("E1 memory")]
    Memory,
    /// Not all that it took is on the disk: `ready` lends it, and `synced` says that it is there.
    #[error("not all is on the disk")]
    Unsynced,
}
