//! Why a device failed.

use thiserror::Error;

/// Why a device failed, as far as the operating system reports it.
#[derive(Clone, Copy, Debug, PartialEq, Eq, Error)]
pub enum SystemFault {
    /// There is no such file, or no such folder.
    #[error("no such file or directory")]
    NotFound,
    #[error("permission denied")]
    NotAllowed,
    /// A folder or a special file stands in its place.
    #[error("not a regular file")]
    NotAFile,
    /// Another device has the file.
    #[error("another process has it open")]
    Locked,
    #[error("no space left on device")]
    NoSpace,
    #[error("disk quota exceeded")]
    OverQuota,
    #[error("file too large")]
    TooLarge,
    #[error("read-only file system")]
    ReadOnly,
    #[error("input/output error")]
    InputOutput,
    /// Memory was refused to the operating system, or to a device in memory.
    #[error("out of memory")]
    NoMemory,
    /// Another error of the operating system, by its number.
    #[error("system error {0}")]
    System(u32),
    /// It has no number.
    #[error("unknown error")]
    Unknown,
}
