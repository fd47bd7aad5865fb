//! What a node starts from.

use crate::cut::Cut;
use ep_replica::Replica;

/// What a node starts from: the replica that its log leaves, how many bytes that log has on the disk, and what was cut off it.
#[derive(Drop)]
pub(crate) struct Started {
    pub(crate) replica: Replica,
    pub(crate) on_disk: usize,
    pub(crate) cut: Option<Cut>,
}
