//! How much of a file was given.

/// How much of a file was given, in its order.
#[derive(Clone, Copy)]
pub(crate) enum Stage {
    /// Nothing.
    Front,
    /// All that stands before the map's entries, and so many of these.
    Entries(usize),
    /// All but the digest.
    Digest,
    /// All.
    Over,
}
