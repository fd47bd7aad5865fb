//! Why a command was not made.

use thiserror::Error;

/// Why a key, a value or a command was not made.
#[derive(Clone, Copy, Debug, PartialEq, Eq, Error)]
pub enum CommandFault {
    /// Memory was refused.
    #[error("out of memory")]
    Memory,
    /// A key hasn't 1 to 255 bytes, a value has more than 65,535, or two keys are the same.
    #[error("out of range")]
    OutOfRange,
}
