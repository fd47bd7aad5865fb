//! What a node is asked.

use crate::instances::Instances;
use crate::malformed::Malformed;
use ep_base::{InstanceId, Key, ReplicaId};
use ep_journal::Event;

/// What a node is asked.
#[derive(Drop)]
pub enum Request {
    /// The node's replica is to take the event.
    Event(Event),
    /// A peer's bytes came, and they are no frame.
    BadFrame,
    /// All own instances that are ready are executed.
    Advance,
    /// What the replica's map has at the key.
    Get(Key),
    /// The next instance above this one, or the first, that the replica knows of and hasn't committed.
    NextOpen(Option<InstanceId>),
    /// What the replica leads in the instance.
    Leads(InstanceId),
    /// All that was taken is to be on the disk, and answered.
    Sync,
    /// What the node is.
    State,
    /// All that is committed and waits for nothing that isn't is executed, own or not.
    ExecuteAll,
    /// What there is to report of the node's entries after the first ones, of which so many were reported before, and of the least instances
    /// that are open, at most so many.
    Ready { after: u32, most: u8 },
    /// The greatest number of an entry of this replica of which the node has handled a frame.
    Handled(ReplicaId),
    /// What interferes with a read of the key.
    Interfering(Key),
    /// The key is read, for which all looks together found these instances.
    Read { key: Key, found: Instances },
    /// None of these: a request whose bytes all came, but of no such kind, or with a body that isn't one of its kind.
    Malformed(Malformed),
}
