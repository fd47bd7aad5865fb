//! How an instance is waited for.

/// How an instance is waited for.
#[derive(Clone, Copy, Debug, PartialEq, Eq)]
pub(crate) struct Waiting {
    /// When the wait is over, by the replica's own time.
    pub(crate) due: u64,
    /// How long at least the wait is that began when something was asked for last.
    pub(crate) wait: u32,
    /// Whether something was asked for.
    pub(crate) is_asked: bool,
    /// How often a wait was over and nothing was asked for, up to 3.
    pub(crate) silent: u8,
}
