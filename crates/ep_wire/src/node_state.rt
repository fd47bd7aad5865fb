//! What a node says of itself.

/// What a node says of itself, once all that it took is on the disk.
#[derive(Clone, Copy, Debug, PartialEq, Eq)]
pub struct NodeState {
    /// Its generation; 0 in version 2, which has none.
    pub generation: u32,
    /// How many entries it has.
    pub entries: u32,
    /// The number of the instance that its last proposal took, the greatest of its own that is used; 0 before any.
    pub used: u16,
    /// How many dependencies one of these instances has at most, of those that it committed.
    pub deps: u16,
    /// Whether it executed a seal.
    pub is_sealed: bool,
    /// The stamp of its last entry; where it has none, the one that its clock goes on from.
    pub stamp: u64,
}
