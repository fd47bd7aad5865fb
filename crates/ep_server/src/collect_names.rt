//! The files that are to be collected.

/// The names of files, as the command line has them.
#[derive(Drop)]
pub struct CollectNames {
    /// Of logs, each of which is a replica's.
    pub logs: Vec<String>,
    /// Of receipts.
    pub receipts: Vec<String>,
}
