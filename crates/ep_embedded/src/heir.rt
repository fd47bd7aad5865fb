//! Who goes on in the next generation.

use ep_base::{ReplicaId, Size};

/// Who goes on in the next generation: how many replicas it has, which of them the node is, and the digest that the header of its log names. That is the digest of
/// the reference to the log that is closed, or of the opening file.
#[derive(Clone, Copy, Debug, PartialEq, Eq)]
pub struct Heir {
    pub cluster: Size,
    pub me: ReplicaId,
    pub digest: [u8; 32],
}
