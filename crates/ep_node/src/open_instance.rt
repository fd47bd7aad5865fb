//! An instance that is open.

use ep_base::InstanceId;
use ep_phase::LeadPhase;

/// An instance that a replica knows of and hasn't committed.
#[derive(Debug, Drop)]
pub struct OpenInstance {
    pub instance: InstanceId,
    /// The number of the first entry that is about it, from 1. None if it is known of only as a dependency of others: nothing of its
    /// own has come.
    pub since: Option<u32>,
    /// The phase in which the replica leads it, and how many other replicas have answered in it, 0 to 6; none if it doesn't lead it.
    pub leads: Option<(LeadPhase, u8)>,
}
