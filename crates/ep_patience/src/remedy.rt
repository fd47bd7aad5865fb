//! What to ask for.

use ep_base::InstanceId;

/// What to ask of the replica for an instance that is late.
#[derive(Clone, Copy, Debug, PartialEq, Eq)]
pub enum Remedy {
    /// The replica is to wait no longer for the whole fast quorum.
    GiveUp(InstanceId),
    /// The replica is to take the instance over.
    Recover(InstanceId),
}
