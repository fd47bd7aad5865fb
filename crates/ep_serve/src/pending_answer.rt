//! Answers that wait.

use ep_base::{InstanceId, Key, ReplicaId};
use ep_journal::Refusal;
use ep_wire::{Instances, Malformed};

/// An answer that waits until all that its node took is on the disk.
#[derive(Drop)]
pub enum PendingAnswer {
    /// So many entries were taken, from this place among the node's entries on, counted from 0.
    Taken { from: usize, count: usize },
    /// An event was refused.
    Refused(Refusal),
    /// What the map has at the key is asked.
    Value(Key),
    /// The next open instance is asked, above this one.
    Open(Option<InstanceId>),
    /// What is led in the instance is asked.
    Leads(InstanceId),
    /// How many entries are on the disk is asked.
    Synced,
    /// What the node is is asked.
    State,
    /// What there is to report is asked, of the entries after the first ones, of which so many were reported before, and of at most so many
    /// open instances.
    Ready { after: u32, most: u8 },
    /// The greatest number of an entry of this replica of which a frame was handled is asked.
    Handled(ReplicaId),
    /// What interferes with a read of the key is asked.
    Interfering(Key),
    /// The key is read, for which all looks together found these instances.
    Read { key: Key, found: Instances },
    /// The request is malformed.
    Malformed(Malformed),
}
