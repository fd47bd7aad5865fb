//! What is known of all peers.

ghost use Rattle.std.specs.Prelude.{◌≡◌};
ghost use Rattle.ep_base.specs.Quorums.{size as size_of};
ghost use Rattle.ep_patience.specs.Peers.{count, distance, is_counted, peer_of, slowest, wait_of};

use crate::peer::Peer;
use crate::trip::time_out;
use crate::waits::Waits;
use ep_base::{ReplicaId, Size};
use ep_phase::is_fast;

/// A cluster, and which replica of it this is.
#[derive(Clone, Copy, Debug, PartialEq, Eq)]
pub(crate) struct Place {
    pub(crate) size: Size,
    pub(crate) me: ReplicaId,
}

/// The peer of this number.
pub(crate) fn peer_of(peers: &[Peer], replica: u8) -> Peer
    ensures { result ≡ peer_of peers.now replica }
{
    match peers.get(usize::from(replica)) {
        Some(peer) => *peer,
        None => Peer {
            trip: None,
            is_reached: false,
        },
    }
}

/// Whether the replica is a peer, not the spared one, and reached.
fn is_counted(place: &Place, peers: &[Peer], spared: ReplicaId, replica: u8) -> bool
    ensures { result ≡ is_counted place.now peers.now spared replica }
{
    is_fast(place.me, spared, replica) && peer_of(peers, replica).is_reached
}

/// How many peers but the spared one are reached; of all peers where that is this replica itself.
pub(crate) fn count(place: &Place, peers: &[Peer], spared: ReplicaId) -> u8
    ensures { result ≡ count place.now peers.now spared (size_of place.now.size) }
{
    let mut count = 0;
    for r in 0..place.size.count() {
        if is_counted(place, peers, spared, r) {
            count += 1;
        }
    }
    count
}

/// How long an answer of the replica is waited for, where it is a peer, not the spared one, and reached; else nothing.
fn wait_of(waits: &Waits, place: &Place, peers: &[Peer], spared: ReplicaId, replica: u8) -> u32
    ensures { result ≡ wait_of waits.now place.now peers.now spared replica }
{
    if is_counted(place, peers, spared, replica) {
        time_out(waits, peer_of(peers, replica).trip)
    } else {
        0
    }
}

/// How long the slowest peer but the spared one is waited for, of those that are reached; of all peers where that is this replica itself.
pub(crate) fn slowest(waits: &Waits, place: &Place, peers: &[Peer], spared: ReplicaId) -> u32
    ensures { result ≡ slowest waits.now place.now peers.now spared (size_of place.now.size) }
{
    let mut wait = waits.granularity.min(waits.longest);
    for r in 0..place.size.count() {
        wait = wait.max(wait_of(waits, place, peers, spared, r));
    }
    wait
}

/// How long a message to the replica and back takes; 0 where it isn't reached.
pub(crate) fn distance(waits: &Waits, peers: &[Peer], replica: ReplicaId) -> u32
    ensures { result ≡ distance waits.now (peer_of peers.now replica) }
{
    let peer = peer_of(peers, replica.index());
    if !peer.is_reached {
        return 0;
    }
    match peer.trip {
        Some(trip) => trip.smoothed,
        None => waits.initial,
    }
}
