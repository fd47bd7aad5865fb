//! Whose command is proposed.

use ep_base::ReplicaId;

/// Whose command is proposed: a client's request, both from 1; the greatest stamp of the receipts that the client has seen, 0 where none; and the
/// replica to be spared, the usual one where none is named.
#[derive(Clone, Copy, Debug, PartialEq, Eq)]
pub struct Call {
    pub client: u32,
    pub request: u32,
    pub seen: u64,
    pub spared: Option<ReplicaId>,
}
