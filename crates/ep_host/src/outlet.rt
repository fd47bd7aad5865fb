//! What goes from one replica to another, behind locks.

use crate::delivery::Delivery;
use crate::held_frames::HeldFrames;
use crate::host_frame::HostFrame;
use crate::port::Port;
use crate::weather_kind::WeatherKind;
use std::alloc::Global;
use std::sync::Wait;

/// A port to the inbox of one replica, how many frames for it are counted since the weather was set, and the held ones.
#[derive(Drop)]
pub struct Outlet {
    pub port: Port<HostFrame>,
    pub count: u64,
    pub held: HeldFrames,
}

impl Outlet {
    ghost use Rattle.std.specs.Prelude.{◌≡◌, [], None, Some};
    ghost use Rattle.ep_host.specs.Outboxes.{PutsIn, Posts, LetsGo};
    ghost use Rattle.ep_host.specs.declared.weather_kind.WeatherKind.TheVariants.{Drop, Hold, Repeat};

    /// None is counted or held.
    pub fn new(alloc: Global, port: Port<HostFrame>) -> Outlet
        ensures { result ≡ record { port = port; count = 0; held = [] } }
    {
        Outlet {
            port,
            count: 0,
            held: HeldFrames::new(alloc),
        }
    }

    /// Puts the frame into the inbox, at the back. `false` where that is full.
    fn put<R: Wait>(&mut self, rt: &R, frame: HostFrame) -> bool
        ensures { PutsIn frame result self.old self.new }
    {
        self.port.put(rt, frame).is_ok()
    }

    /// Puts a copy of the frame, where there is memory for one.
    fn put_copy<R: Wait>(&mut self, rt: &R, frame: &HostFrame) -> bool
        ensures { PutsIn frame.now result self.old self.new }
    {
        match frame.copy() {
            Ok(copy) => self.put(rt, copy),
            Err(_) => false,
        }
    }

    /// Puts the frame once.
    fn put_once<R: Wait>(&mut self, rt: &R, frame: HostFrame) -> Delivery
        ensures { Posts None frame result self.old self.new }
    {
        self.count = self.count.saturating_add(1);
        Delivery::Put(self.put(rt, frame))
    }

    /// Puts the frame twice, or once where there is no memory for a copy.
    fn put_twice<R: Wait>(&mut self, rt: &R, frame: HostFrame) -> Delivery
        ensures { Posts (Some Repeat) frame result self.old self.new }
    {
        self.count = self.count.saturating_add(1);
        let first = self.put_copy(rt, &frame);
        let second = self.put(rt, frame);
        Delivery::Repeated(first, second)
    }

    /// Holds the frame.
    fn hold(&mut self, frame: HostFrame) -> Delivery
        ensures { Posts (Some Hold) frame result self.old self.new }
    {
        match self.held.push(frame) {
            Ok(()) => {
                self.count = self.count.saturating_add(1);
                Delivery::Held
            }
            Err(_) => Delivery::Short,
        }
    }

    /// Drops the frame.
    fn pass_over(&mut self, frame: HostFrame) -> Delivery
        ensures { Posts (Some Drop) frame result self.old self.new }
    {
        drop(frame);
        self.count = self.count.saturating_add(1);
        Delivery::Dropped
    }

    /// Does with a frame for the replica what the weather says.
    pub fn send<R: Wait>(&mut self, rt: &R, kind: Option<WeatherKind>, frame: HostFrame) -> Delivery
        ensures { Posts kind frame result self.old self.new }
    {
        match kind {
            None => self.put_once(rt, frame),
            Some(WeatherKind::Drop) => self.pass_over(frame),
            Some(WeatherKind::Hold) => self.hold(frame),
            Some(WeatherKind::Repeat) => self.put_twice(rt, frame),
        }
    }

    /// Puts the held frames, in order. Answers how many are lost.
    pub fn release<R: Wait>(&mut self, rt: &R) -> u64
        ensures { LetsGo result self.old self.new }
    {
        let mut lost = 0u64;
        for _ in 0..self.held.len() {
            let Some(frame) = self.held.pop() else {
                break;
            };
            if !self.put(rt, frame) {
                lost += 1;
            }
        }
        lost
    }
}
