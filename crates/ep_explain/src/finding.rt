//! What is found of bytes.

/// What is found of bytes that are to be a bundle or a script.
#[derive(Clone, Copy, Debug, PartialEq, Eq)]
pub enum Finding {
    /// They are a bundle, which an audit accepts.
    Accepted,
    /// They are a bundle, which an audit refuses.
    Refused,
    /// They are no bundle, and no script that is read.
    Unreadable,
    /// They are a script, which is read.
    Script,
}
