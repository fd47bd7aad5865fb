//! When answers are written.

/// When what was taken is written to the disk, and its answers are given.
#[derive(Clone, Copy, Debug, PartialEq, Eq)]
pub enum Mode {
    /// After each request.
    Each,
    /// When a request asks for it, or nothing that was taken isn't on the disk.
    Asked,
}
