//! Whose log a device has.

use ep_base::{ReplicaId, Size};
use ep_log::Origin;

/// Whose log a device has: a replica of a cluster, and what it began with.
#[derive(Drop)]
pub struct Whose {
    pub cluster: Size,
    pub me: ReplicaId,
    pub origin: Origin,
}
