//! One event of a node: its entry, and what the entry sends.

ghost use Rattle.std.specs.Prelude.{◌≡◌, ◌<◌, ◌++◌, ◌∷◌, [], List, length, IfOk, IfErr, OnErr};
ghost use Rattle.ep_journal.specs.declared.entry.Entry.{Entry};
ghost use Rattle.ep_replica.specs.Applied.{IsDeclined};
ghost use Rattle.ep_host.specs.HostFrames.{AreHostFrames};
ghost use Rattle.ep_host.specs.Rings.{ArePeers, PopsAt};
ghost use Rattle.ep_host.specs.Acts.{Made, IsHandled};

use crate::link::Link;
use crate::putting::send;
use crate::tending::lost_by;
use crate::weather::Weather;
use ep_frame::Frame;
use ep_journal::{Event, StepFault};
use ep_replica::Replica;

/// The frames of the last entry.
fn last_frames(replica: &Replica) -> &[Frame]
    requires { 0 < length replica.now.entries }
    ensures frames { (before : List Entry) (e : Entry) → replica.now.entries ≡ before ++ e ∷ [] → result.now ≡ e.frames }
    ensures version { AreHostFrames result.now }
{
    let entries = replica.journal().entries();
    entries[entries.len() - 1].frames.as_slice()
}

/// Takes the event, and does with the frames of its entry what the weather says. Answers how many of them are lost.
pub fn act(
    replica: &mut Replica,
    links: &mut Vec<Link>,
    weather: &[Weather],
    event: Event,
) -> Result<u64, StepFault>
    requires { ArePeers replica.old.me links.old.items }
    ensures ok { IfOk result (λ lost. Made weather.now event lost replica.old replica.new links.old.items links.new.items) }
    ensures refused { IfErr result (λ fault. IsDeclined replica.old event fault) }
    ensures err { OnErr result ((replica.new ≡ replica.old) × (links.new.items ≡ links.old.items)) }
{
    replica.take(event)?;
    Ok(send(replica.me(), links, weather, last_frames(replica)))
}

/// Handles a frame that was taken, and answers how many frames are lost. One that is refused is dropped, and is lost where it was refused
/// when out of memory.
pub fn handle(
    replica: &mut Replica,
    links: &mut Vec<Link>,
    weather: &[Weather],
    frame: Frame,
) -> u64
    requires { ArePeers replica.old.me links.old.items }
    ensures { IsHandled weather.now frame result replica.old replica.new links.old.items links.new.items }
{
    match act(replica, links, weather, Event::Handle(frame)) {
        Ok(lost) => lost,
        Err(fault) => lost_by(&fault),
    }
}

/// Takes a frame from the ring at a place, where it holds one.
pub fn pop(links: &mut Vec<Link>, place: usize) -> Option<Frame>
    requires { place < length links.old.items }
    ensures { PopsAt place result links.old.items links.new.items }
{
    links[place].pop()
}
