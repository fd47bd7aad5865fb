//! The ends of the rings between a node and a peer.

use crate::delivery::Delivery;
use crate::held_frames::HeldFrames;
use crate::host_frame::{HostFrame, frame_in};
use crate::weather_kind::WeatherKind;
use ep_base::ReplicaId;
use ep_frame::Frame;
use rtrb::{Consumer, Producer};

/// The ends of the two rings between a node and a peer, how many frames for the peer are counted since the weather was set, and the held ones.
#[derive(Drop)]
pub struct Link {
    pub peer: ReplicaId,
    pub to: Producer<HostFrame>,
    pub from: Consumer<HostFrame>,
    pub count: u64,
    pub held: HeldFrames,
}

impl Link {
    ghost use Rattle.std.specs.Prelude.{◌≡◌, ◌∷◌, ◌++◌, [], cond, option_to_list, None, Some, IfSome, IsFalse};
    ghost use Rattle.rtrb.specs.Ring.{sent, received, known_free};
    ghost use Rattle.ep_host.specs.Fates.{Delivers, Releases};
    ghost use Rattle.ep_host.specs.HostFrames.{IsHostFrame};
    ghost use Rattle.ep_host.specs.Rings.{KeepsLink};
    ghost use Rattle.ep_host.specs.declared.weather_kind.WeatherKind.TheVariants.{Hold, Repeat};

    /// Puts the frame into the ring to the peer. `false` where it is full.
    fn put(&mut self, frame: HostFrame) -> bool
        ensures keeps { KeepsLink self.old self.new }
        ensures put { sent self.new.to ≡ sent self.old.to ++ cond result (frame ∷ []) [] }
        ensures same { (received self.new.from ≡ received self.old.from) × (self.new.count ≡ self.old.count) × (self.new.held ≡ self.old.held) }
        ensures full { IsFalse result → known_free self.new.to ≡ 0 }
    {
        self.to.push(frame).is_ok()
    }

    /// Puts the frame once more, where there is memory for that and room.
    fn put_again(&mut self, frame: &Frame) -> bool
        requires { IsHostFrame frame.now }
        ensures keeps { KeepsLink self.old self.new }
        ensures put { sent self.new.to ≡ sent self.old.to ++ cond result (frame.now ∷ []) [] }
        ensures same { (received self.new.from ≡ received self.old.from) × (self.new.count ≡ self.old.count) × (self.new.held ≡ self.old.held) }
    {
        match HostFrame::copied(frame) {
            Ok(frame) => self.put(frame),
            Err(_) => false,
        }
    }

    /// Puts the frame once.
    fn put_once(&mut self, frame: &Frame) -> Delivery
        requires { IsHostFrame frame.now }
        ensures { Delivers None frame.now result self.old self.new }
    {
        let Ok(frame) = HostFrame::copied(frame) else {
            return Delivery::Short;
        };
        self.count = self.count.saturating_add(1);
        Delivery::Put(self.put(frame))
    }

    /// Puts the frame twice.
    fn put_twice(&mut self, frame: &Frame) -> Delivery
        requires { IsHostFrame frame.now }
        ensures { Delivers (Some Repeat) frame.now result self.old self.new }
    {
        let Ok(copy) = HostFrame::copied(frame) else {
            return Delivery::Short;
        };
        self.count = self.count.saturating_add(1);
        let first = self.put(copy);
        let second = self.put_again(frame);
        Delivery::Repeated(first, second)
    }

    /// Holds the frame.
    fn hold(&mut self, frame: &Frame) -> Delivery
        requires { IsHostFrame frame.now }
        ensures { Delivers (Some Hold) frame.now result self.old self.new }
    {
        let Ok(frame) = HostFrame::copied(frame) else {
            return Delivery::Short;
        };
        match self.held.push(frame) {
            Ok(()) => {
                self.count = self.count.saturating_add(1);
                Delivery::Held
            }
            Err(_) => Delivery::Short,
        }
    }

    /// Does with a frame for the peer what the weather says.
    pub fn send(&mut self, kind: Option<WeatherKind>, frame: &Frame) -> Delivery
        requires { IsHostFrame frame.now }
        ensures { Delivers kind frame.now result self.old self.new }
    {
        match kind {
            None => self.put_once(frame),
            Some(WeatherKind::Drop) => {
                self.count = self.count.saturating_add(1);
                Delivery::Dropped
            }
            Some(WeatherKind::Hold) => self.hold(frame),
            Some(WeatherKind::Repeat) => self.put_twice(frame),
        }
    }

    /// Puts the held frames, in order. Answers how many are lost, where the ring was full.
    pub fn release(&mut self) -> u64
        ensures { Releases result self.old self.new }
    {
        let mut lost = 0u64;
        for _ in 0..self.held.len() {
            let Some(frame) = self.held.pop() else {
                break;
            };
            if !self.put(frame) {
                lost += 1;
            }
        }
        lost
    }

    /// Takes the next frame from the ring of the peer, where it holds one.
    pub fn pop(&mut self) -> Option<Frame>
        ensures keeps { KeepsLink self.old self.new }
        ensures put { sent self.new.to ≡ sent self.old.to }
        ensures taken { received self.new.from ≡ received self.old.from ++ option_to_list result }
        ensures version { IfSome result IsHostFrame }
        ensures same { (self.new.count ≡ self.old.count) × (self.new.held ≡ self.old.held) }
    {
        frame_in(self.from.pop().ok())
    }
}
