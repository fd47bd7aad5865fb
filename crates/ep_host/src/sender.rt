//! What a replica behind its lock sends and receives by.

ghost use Rattle.std.specs.Prelude.{◌≡◌};

use crate::delivery::Delivery;
use crate::frames_out::FramesOut;
use crate::host_frame::HostFrame;
use crate::outlet::Outlet;
use crate::outlets::{count_anew, deliver, make_room, outlets_to, release_all};
use crate::port::Port;
use crate::weather::{Weather, own_of};
use ep_base::ReplicaId;
use ep_frame::Frame;
use std::alloc::{AllocError, Global};
use std::marker::Model;
use std::sync::Wait;

/// The weather of the frames that a replica sends, an outlet for each replica of the cluster, the port to its own inbox by which it receives, and how
/// many frames are lost.
///
/// Each held frame is in the outlet of its receiver, at any time and whatever threads do.
#[derive(Drop)]
pub struct Sender {
    me: ReplicaId,
    weather: Vec<Weather>,
    // By the receivers' numbers. The own one is never used.
    outlets: Vec<Outlet>,
    inbox: Port<HostFrame>,
    lost: u64,
}

impl Model for Sender {
    ghost use Rattle.ep_host.specs.Outboxes.{Outbox, AreAddressed};

    ghost Value = { Outbox };

    ghost view = { λ s. record { me = s.me; weather = s.weather.items; outlets = s.outlets.items; inbox = s.inbox; lost = s.lost } };

    ghost invariant = { λ s. AreAddressed s.outlets.items };
}

impl Sender {
    ghost use Rattle.std.specs.Prelude.{◌≡◌, ◌<◌, ◌∷◌, [], length, IfOk, OnOk, OnErr};
    ghost use Rattle.ep_host.specs.Fates.{fate, counted_up};
    ghost use Rattle.ep_host.specs.Ports.{inbox_capacity};
    ghost use Rattle.ep_host.specs.HostFrames.{AreHostFrames};
    ghost use Rattle.ep_host.specs.Outboxes.{IsNewOutbox, Mails, IsMailed, SetsOwn, IsLetGo, Receives};

    /// The sender of the replica of this number, of which these are the inboxes of the cluster, in order: without weather; nothing is held, counted or
    /// lost.
    pub fn new(
        alloc: Global,
        me: ReplicaId,
        inboxes: &[Port<HostFrame>],
    ) -> Result<Sender, AllocError>
        requires { me < length inboxes.now }
        ensures { IfOk result (IsNewOutbox inboxes.now me) }
    {
        let inbox = inboxes[me.index() as usize].another()?;
        let outlets = outlets_to(alloc, inboxes)?;
        Ok(Sender {
            me,
            weather: Vec::new(alloc),
            outlets,
            inbox,
            lost: 0,
        })
    }

    /// Takes the frame at the front of the replica's inbox, in one step; none where the inbox is empty.
    pub fn receive<R: Wait>(&mut self, rt: &R) -> Option<HostFrame>
        ensures { Receives result self.old self.new }
    {
        self.inbox.take(rt)
    }

    /// For how many frames the replica's inbox has room.
    pub fn capacity(&self) -> usize
        ensures { result ≡ inbox_capacity self.now.inbox }
    {
        self.inbox.capacity()
    }

    /// How many frames are lost, counted up to 2^64 - 1.
    pub fn lost(&self) -> u64
        ensures { result ≡ self.now.lost }
    {
        self.lost
    }

    /// So many more are lost.
    fn lose(&mut self, more: u64)
        ensures { self.new ≡ record self.old { lost = counted_up self.old.lost more } }
    {
        self.lost = self.lost.saturating_add(more);
    }

    /// Does with the frame what the weather says, and counts it where it is lost.
    fn send_one<R: Wait>(&mut self, rt: &R, frame: HostFrame) -> Delivery
        ensures { Mails (fate frame result ∷ []) 0 self.old self.new }
    {
        let weather = self.weather.as_slice();
        let delivery = deliver(rt, &mut self.outlets, weather, frame);
        self.lost = self.lost.saturating_add(delivery.lost());
        delivery
    }

    /// Does with frames, in order, what the weather says, and counts those that are lost.
    fn send_all<R: Wait>(&mut self, rt: &R, frames: Vec<Frame>)
        requires { AreHostFrames frames.items }
        ensures { IsMailed frames.items 0 self.old self.new }
    {
        for frame in frames {
            self.send_one(rt, HostFrame::new(frame));
        }
    }

    /// Does with frames, in order, what the weather says, and counts those that are lost with those that were lost before.
    pub fn send<R: Wait>(&mut self, rt: &R, sending: FramesOut)
        requires { AreHostFrames sending.frames.items }
        ensures { IsMailed sending.frames.items sending.lost self.old self.new }
    {
        let FramesOut { frames, lost } = sending;
        self.send_all(rt, frames);
        self.lose(lost);
    }

    /// Sets the weather: its own part of the list takes the place of the one before. What is held stays held.
    pub fn set_weather(&mut self, alloc: Global, weather: &[Weather]) -> Result<(), AllocError>
        ensures ok { OnOk result (SetsOwn weather.now self.old self.new) }
        ensures err { OnErr result (self.new ≡ self.old) }
    {
        let own = own_of(alloc, self.me, weather)?;
        make_room(&mut self.outlets, own.as_slice())?;
        count_anew(&mut self.outlets);
        self.weather = own;
        Ok(())
    }

    /// Puts the held frames into the inboxes of their receivers, by rising receiver and for each in order. Those that find theirs full are lost.
    pub fn release<R: Wait>(&mut self, rt: &R)
        ensures { IsLetGo self.old self.new }
    {
        self.lost = release_all(rt, &mut self.outlets, self.lost);
    }
}
