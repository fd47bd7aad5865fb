//! Which replica of which cluster a node is.

use ep_base::{ReplicaId, Size};

/// Which replica a node is, from 0, and of how many.
#[derive(Clone, Copy, Debug, PartialEq, Eq)]
pub struct Seat {
    pub cluster: Size,
    pub me: ReplicaId,
}
