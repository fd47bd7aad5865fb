//! Where a frame goes, and which one it is.

use ep_base::{ReplicaId, Stamp};

/// Where a frame goes, and which frame of which journal entry of its sender it is.
#[derive(Clone, Copy, Debug, PartialEq, Eq)]
pub struct Origin {
    /// The receiver.
    pub to: ReplicaId,
    /// The frame's place among the frames that its entry sends, from 0.
    pub out: u16,
    /// The entry's place in the sender's journal, from 1.
    pub entry: u32,
    /// The entry's stamp.
    pub stamp: Stamp,
}
