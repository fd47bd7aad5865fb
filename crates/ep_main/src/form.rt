//! How a report is written.

/// How a report is written.
#[derive(Clone, Copy, Debug, PartialEq, Eq)]
pub enum Form {
    /// As lines of text.
    Lines,
    /// As one object of JSON.
    Json,
}
