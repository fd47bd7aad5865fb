//! What the files of a generation gave.

use ep_assemble::OpenedLog;

/// The bytes of the files of a generation that is to be collected, each in the place of its name.
#[derive(Drop)]
pub struct GenerationGathered {
    /// Of opening files and logs.
    pub kept: Vec<OpenedLog>,
    /// Of receipts.
    pub receipts: Vec<Vec<u8>>,
}
