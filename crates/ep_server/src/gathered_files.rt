//! What files gave.

/// The bytes of the files that are to be collected, each in the place of its name.
#[derive(Drop)]
pub struct GatheredFiles {
    /// Of logs.
    pub logs: Vec<Vec<u8>>,
    /// Of receipts.
    pub receipts: Vec<Vec<u8>>,
}
