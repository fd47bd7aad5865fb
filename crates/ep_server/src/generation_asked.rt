//! The generation that is to be collected.

use ep_base::Generation;

/// The generation that is to be collected, of which folders.
#[derive(Drop)]
pub struct GenerationAsked {
    /// The generation.
    pub generation: Generation,
    /// The names of the folders of nodes, each of which is a replica's.
    pub folders: Vec<String>,
    /// The names of files of receipts.
    pub receipts: Vec<String>,
}
