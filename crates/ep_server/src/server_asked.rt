//! What the program is asked for.

use crate::collect_names::CollectNames;
use crate::folder_options::FolderOptions;
use crate::generation_asked::GenerationAsked;
use crate::options::Options;

/// What the words of the command line ask for.
#[derive(Drop)]
pub enum ServerAsked<'a> {
    /// To serve as a node of version 2, with its log in a file.
    Node(Options<'a>),
    /// To serve as a node that lives through generations, in a folder.
    Folder(FolderOptions<'a>),
    /// To make the bundle of logs and receipts.
    Collect(CollectNames),
    /// To make the bundle of a generation, of folders and receipts.
    CollectGeneration(GenerationAsked),
    /// The map of the newest generation in this folder, in words.
    Contents(&'a str),
    /// The program's name and its version.
    Version,
    /// Help: this text.
    Help(String),
}
