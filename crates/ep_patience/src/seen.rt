//! An open instance, as it is handed in.

use ep_base::{InstanceId, ReplicaId};
use ep_phase::LeadPhase;

/// An instance that a replica hasn't committed.
#[derive(Debug, Drop)]
pub struct Seen {
    pub instance: InstanceId,
    /// The phase in which the replica leads it, and how many other replicas have answered, 0 to 6; none where it doesn't lead it.
    pub leads: Option<(LeadPhase, u8)>,
    /// Whether it is handed in because a peer says that it is committed there.
    pub is_reported: bool,
    /// The replica that its proposal spares, where that is the replica's own: it goes to all others. Of another's it says nothing.
    pub spared: ReplicaId,
}
