//! How a replica starts.

use crate::log_start::LogStart;

/// How a replica starts.
#[derive(Clone, Copy, Debug, PartialEq, Eq)]
pub struct Plan {
    /// In which generation.
    pub generation: u32,
    /// Whether its opening is written first.
    pub writes: bool,
    pub log: LogStart,
}
