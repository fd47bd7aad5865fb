//! Frames out are put into their rings.

ghost use Rattle.std.specs.Prelude.{◌≡◌, ◌∷◌, []};
ghost use Rattle.ep_host.specs.Pointwise.{Each};
ghost use Rattle.ep_host.specs.Rings.{ArePeers, place};
ghost use Rattle.ep_host.specs.Fates.{fate, Sends, IsSent};
ghost use Rattle.ep_host.specs.HostFrames.{IsHostFrame, AreHostFrames};

use crate::delivery::Delivery;
use crate::link::Link;
use crate::weather::{Weather, kind_at};
use ep_base::ReplicaId;
use ep_frame::Frame;

/// The place at which a node keeps its link to a peer.
pub fn place(me: ReplicaId, peer: ReplicaId) -> usize
    ensures { result ≡ place me peer }
{
    let peer = peer.index();
    if peer < me.index() {
        peer as usize
    } else {
        peer.saturating_sub(1) as usize
    }
}

/// Does with the frame what the weather says, by the ring to its receiver. Where there is no such ring, it is lost.
fn send_one(me: ReplicaId, links: &mut Vec<Link>, weather: &[Weather], frame: &Frame) -> Delivery
    requires version { IsHostFrame frame.now }
    requires peers { ArePeers me links.old.items }
    ensures { Each (Sends weather.now (fate frame.now result ∷ [])) links.old.items links.new.items }
{
    let peer = frame.origin().to;
    let place = place(me, peer);
    if place >= links.len() || links[place].peer != peer {
        return Delivery::Put(false);
    }
    let count = links[place].count.saturating_add(1);
    links[place].send(kind_at(weather, peer, count), frame)
}

/// Does with the frames, in order, what the weather says, and counts those that are lost.
pub fn send(me: ReplicaId, links: &mut Vec<Link>, weather: &[Weather], frames: &[Frame]) -> u64
    requires version { AreHostFrames frames.now }
    requires peers { ArePeers me links.old.items }
    ensures { IsSent weather.now frames.now result links.old.items links.new.items }
{
    let mut lost = 0u64;
    for frame in frames {
        lost += send_one(me, links, weather, frame).lost();
    }
    lost
}
