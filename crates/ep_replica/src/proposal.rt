//! What a replica proposed.

/// A client's request, as it was proposed.
#[derive(Clone, Copy, Debug, PartialEq, Eq)]
pub struct Proposal {
    /// The client, from 1.
    pub client: u32,
    /// The client's request, from 1.
    pub request: u32,
    /// The stamp that the client handed in, 0 if it knew of none.
    pub seen: u64,
}
