//! What a turn judges an instance by.

ghost use Rattle.std.specs.Prelude.{◌≡◌};
ghost use Rattle.ep_patience.specs.Waiting.{outlook};

use crate::peer::Peer;
use crate::peers::{Place, count, slowest};
use crate::waits::Waits;
use ep_base::ReplicaId;

/// What a turn judges an instance by.
#[derive(Clone, Copy, Debug, PartialEq, Eq)]
pub(crate) struct Outlook {
    pub(crate) place: Place,
    /// The replica's own time.
    pub(crate) time: u64,
    /// How long it is waited for where it is an own proposal: the greatest time-out of those to which it goes.
    pub(crate) own: u32,
    /// How long a recovery is waited for: the greatest time-out of all peers.
    pub(crate) again: u32,
    /// How many of those are reached to which it goes.
    pub(crate) members: u8,
}

/// What a turn at this time judges an instance by whose proposal spares this replica.
pub(crate) fn outlook_at(
    waits: &Waits,
    place: Place,
    peers: &[Peer],
    spared: ReplicaId,
    now: u64,
) -> Outlook
    ensures { result ≡ outlook waits.now place peers.now spared now }
{
    Outlook {
        place,
        time: now,
        own: slowest(waits, &place, peers, spared),
        again: slowest(waits, &place, peers, place.me),
        members: count(&place, peers, spared),
    }
}
