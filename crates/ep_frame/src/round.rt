//! What goes to several replicas at once.

ghost use Rattle.std.specs.Prelude.{◌≡◌, ◌≤◌, ◌<◌, length, slice_index_or};

use crate::origin::Origin;
use ep_base::{ReplicaId, Stamp};

/// Which entry of its sender sends a message to several replicas, and to which.
#[derive(Clone, Copy)]
pub struct Round<'a> {
    /// The entry's place in the sender's journal, from 1.
    pub entry: u32,
    /// The entry's stamp.
    pub stamp: Stamp,
    /// The receivers, in the order of their frames.
    pub receivers: &'a [ReplicaId],
}

impl Round<'_> {
    /// The origin of the frame to the receiver at this place.
    pub(crate) fn origin(&self, place: usize) -> Origin
        requires there { place < length self.now.receivers.now }
        requires few { length self.now.receivers.now ≤ 7 }
        ensures { result ≡ record { to = slice_index_or self.now.receivers.now place result.to; out = place; entry = self.now.entry; stamp = self.now.stamp } }
    {
        Origin {
            to: self.receivers[place],
            out: place as u16,
            entry: self.entry,
            stamp: self.stamp,
        }
    }
}
