//! What a replica has handled of the others.

ghost use Rattle.std.specs.Prelude.{◌≡◌, cond, eqb};
ghost use Rattle.ep_frame.specs.Meaning.{origin_at, sender_at};
ghost use Rattle.ep_node.specs.Handled.{handled_from, number_from};

use ep_base::ReplicaId;
use ep_frame::Frame;
use ep_journal::{Entry, Event};

/// The number of the sender's entry that the frame came of, where this replica sent it; else 0.
fn number_in(peer: ReplicaId, frame: &Frame) -> u32
    ensures { result ≡ cond (eqb (sender_at frame.now) peer) (origin_at frame.now).entry 0 }
{
    if frame.from() == peer {
        frame.origin().entry
    } else {
        0
    }
}

/// The number of the sender's entry that the event's frame came of, where this replica sent it; else 0.
fn number_from(peer: ReplicaId, event: &Event) -> u32
    ensures { result ≡ number_from peer event.now }
{
    match event {
        Event::Handle(frame) => number_in(peer, frame),
        Event::Propose { .. } | Event::GiveUp(_) | Event::Recover(_) | Event::Execute(_) => 0,
    }
}

/// The greatest number of an entry of this other replica of which a frame is handled by these entries; 0 where none is. It takes a pass over
/// the entries.
pub fn handled_from(peer: ReplicaId, entries: &[Entry]) -> u32
    ensures { result ≡ handled_from peer entries.now }
{
    let mut most = 0;
    for entry in entries {
        most = most.max(number_from(peer, &entry.event));
    }
    most
}
