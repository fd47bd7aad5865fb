//! A cluster in a generation.

use ep_base::{Generation, Size};
use ep_journal::Opening;

/// A cluster in a generation, as its opening files say.
#[derive(Drop)]
pub(crate) struct OpenedCluster {
    /// The generation.
    pub generation: Generation,
    /// How many replicas it has.
    pub size: Size,
    /// What all its journals open with: the map of all files, and the least of their stamps.
    pub opening: Opening,
}
