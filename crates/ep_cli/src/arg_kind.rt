//! How a word of a command is written.

/// How a word of a command is written.
pub enum ArgKind {
    /// By itself.
    Word,
    /// As an option without a value.
    Flag,
    /// As an option with a value, which help calls so.
    Valued(&'static str),
}
