//! A log that the next generation opens with.

use crate::named_reference::NamedReference;

/// What the log of a generation had when that was closed, and the reference of the next generation, which names it.
#[derive(Drop)]
pub struct NamedLog {
    pub named: NamedReference,
    /// As many bytes as the reference says, with the SHA-256 that it says.
    pub bytes: Vec<u8>,
}
