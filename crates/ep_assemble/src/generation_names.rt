//! The files that a generation is collected of.

/// The names of the files that a generation is collected of.
#[derive(Drop)]
pub struct GenerationNames {
    /// Of opening files, each in the place of its log.
    pub openings: Vec<String>,
    /// Of logs, each of which is a replica's.
    pub logs: Vec<String>,
    /// Of files of receipts.
    pub receipts: Vec<String>,
}
