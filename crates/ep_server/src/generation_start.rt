//! A generation that is about to be opened.

use crate::named_file::NamedFile;
use ep_folder::GenerationFolder;
use ep_node::Begin;

/// A generation that is about to be opened.
#[derive(Drop)]
pub(crate) struct GenerationStart {
    /// What it opens with, and the digest that its log names.
    pub(crate) named: NamedFile,
    /// Whether its log is begun.
    pub(crate) begin: Begin,
    /// What the folder had before it was opened.
    pub(crate) held: Vec<GenerationFolder>,
}
