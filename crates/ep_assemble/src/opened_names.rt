//! The files whose map is shown.

/// The names of an opening file and of the log beside it.
#[derive(Drop)]
pub struct OpenedNames {
    /// Of the opening file.
    pub opening: String,
    /// Of the log.
    pub log: String,
}
