//! The outlets of a replica behind its lock, one for each replica of the cluster, by rising number.

ghost use Rattle.std.specs.Prelude.{◌≡◌, ◌∷◌, [], ◌≤◌, false, IfOk, length};
ghost use Rattle.ep_frame.specs.Meaning.{origin_at};
ghost use Rattle.ep_host.specs.Fates.{fate};
ghost use Rattle.ep_host.specs.Outboxes.{AreNew, Passes, CountsFromNone, LetsGo};
ghost use Rattle.ep_host.specs.Pointwise.{Each, EachAt};
ghost use Rattle.ep_host.specs.Setting.{LosesAll};
ghost use Rattle.ep_host.specs.declared.delivery.Delivery.TheVariants.{Put};

use crate::delivery::Delivery;
use crate::host_frame::HostFrame;
use crate::outlet::Outlet;
use crate::port::Port;
use crate::setting::holds;
use crate::weather::{Weather, kind_at};
use std::alloc::{AllocError, Global};
use std::sync::Wait;

/// An outlet to each of these inboxes, in order. None is counted or held.
pub fn outlets_to(alloc: Global, inboxes: &[Port<HostFrame>]) -> Result<Vec<Outlet>, AllocError>
    ensures { IfOk result (λ outlets. AreNew inboxes.now outlets.items) }
{
    let mut outlets = Vec::new(alloc);
    for inbox in inboxes {
        outlets.push(Outlet::new(alloc, inbox.another()?))?;
    }
    Ok(outlets)
}

/// Does with the frame what the weather says, by the outlet of its receiver. Where there is no such outlet, it is lost.
pub fn deliver<R: Wait>(
    rt: &R,
    outlets: &mut Vec<Outlet>,
    weather: &[Weather],
    frame: HostFrame,
) -> Delivery
    ensures outlets { EachAt (Passes weather.now (fate frame result ∷ [])) outlets.old.items outlets.new.items }
    ensures stray { length outlets.old.items ≤ (origin_at frame).to → result ≡ Put false }
{
    let to = frame.origin().to;
    let place = to.index() as usize;
    if place >= outlets.len() {
        drop(frame);
        return Delivery::Put(false);
    }
    let count = outlets[place].count.saturating_add(1);
    outlets[place].send(rt, kind_at(weather, to, count), frame)
}

/// Makes the places for the frames that are to be held.
pub fn make_room(outlets: &mut [Outlet], weather: &[Weather]) -> Result<(), AllocError>
    ensures { outlets.new ≡ outlets.old }
{
    for place in 0..outlets.len() {
        outlets[place].held.reserve(holds(weather, place))?;
    }
    Ok(())
}

/// Frames for each replica are counted anew.
pub fn count_anew(outlets: &mut [Outlet])
    ensures { Each CountsFromNone outlets.old outlets.new }
{
    for place in 0..outlets.len() {
        outlets[place].count = 0;
    }
}

/// Puts the held frames of each outlet, in order. Answers what is lost with those that find their inbox full, of so many before.
pub fn release_all<R: Wait>(rt: &R, outlets: &mut [Outlet], lost: u64) -> u64
    ensures { LosesAll LetsGo lost result outlets.old outlets.new }
{
    let mut lost = lost;
    for place in 0..outlets.len() {
        lost = lost.saturating_add(outlets[place].release(rt));
    }
    lost
}
