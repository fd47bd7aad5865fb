//! Where a message stands.

use ep_base::ReplicaId;

/// Where a message stands: which frame of which entry it is.
#[derive(Clone, Copy, Debug, PartialEq, Eq)]
pub struct Place {
    /// The sender.
    pub replica: ReplicaId,
    /// The number of the sender's entry, from 1.
    pub entry: u32,
    /// The place among the frames that the entry sends, from 0.
    pub out: u16,
}
