//! What becomes of what a replica leads.

use ep_base::{Attrs, ReplicaId};
use ep_rules::LedInstance;

/// What becomes of what the replica leads in an instance.
#[derive(Drop)]
pub enum LeadChange {
    /// It stays as it is.
    Stays,
    /// The replica leads this from now on.
    Leads(LedInstance),
    /// One more replica pre-accepted, with these attributes. That is kept alone: nothing is recorded with it.
    PreAccepted(ReplicaId, Attrs),
    /// One more replica accepted. That is kept alone, too.
    Accepted(ReplicaId),
    /// It leads the instance no longer.
    Ends,
}
