//! What a replica of a host sends and receives by, whose inboxes are as large as those of its host.

use crate::frames_out::FramesOut;
use crate::host_frame::HostFrame;
use crate::port::Port;
use crate::sender::Sender;
use crate::start::Start;
use crate::weather::Weather;
use ep_base::ReplicaId;
use std::alloc::{AllocError, Global};
use std::marker::{Model, PhantomData};
use std::sync::Wait;

/// A sender whose inboxes are as large as those of its host, by its type. So whoever takes its lock knows that.
#[derive(Drop)]
pub struct HostSender<S: Start> {
    sender: Sender,
    of: PhantomData<S>,
}

impl<S: Start> Model for HostSender<S> {
    ghost use Rattle.ep_host.specs.Outboxes.{Outbox};
    ghost use Rattle.ep_host.specs.Rooms.{AreRoomy};

    ghost Value = { Outbox };

    ghost view = { λ s. s.sender };

    ghost invariant = { λ s. AreRoomy S.room s.sender };
}

impl<S: Start> HostSender<S> {
    ghost use Rattle.std.specs.Prelude.{◌≡◌, ◌<◌, length, IfOk, OnOk, OnErr};
    ghost use Rattle.ep_host.specs.Ports.{inbox_capacity};
    ghost use Rattle.ep_host.specs.HostFrames.{AreHostFrames};
    ghost use Rattle.ep_host.specs.Outboxes.{IsNewOutbox, IsMailed, SetsOwn, IsLetGo, Receives};
    ghost use Rattle.ep_host.specs.Rooms.{HasRoom, HaveRoom};

    /// The sender of the replica of this number, of which these are the inboxes of the cluster, in order.
    pub fn new(
        alloc: Global,
        me: ReplicaId,
        inboxes: &[Port<HostFrame>],
    ) -> Result<HostSender<S>, AllocError>
        requires me { me < length inboxes.now }
        requires room { HaveRoom S.room inboxes.now }
        ensures { IfOk result (IsNewOutbox inboxes.now me) }
    {
        let sender = Sender::new(alloc, me, inboxes)?;
        Ok(HostSender {
            sender,
            of: PhantomData,
        })
    }

    /// For how many frames the replica's own inbox has room.
    pub fn capacity(&self) -> usize
        ensures value { result ≡ inbox_capacity self.now.inbox }
        ensures room { HasRoom S.room result }
    {
        self.sender.capacity()
    }

    /// Takes the frame at the front of the replica's inbox, as `Sender::receive` does.
    pub fn receive<R: Wait>(&mut self, rt: &R) -> Option<HostFrame>
        ensures { Receives result self.old self.new }
    {
        self.sender.receive(rt)
    }

    /// How many frames are lost, counted up to 2^64 - 1.
    pub fn lost(&self) -> u64
        ensures { result ≡ self.now.lost }
    {
        self.sender.lost()
    }

    /// Sends frames, as `Sender::send` does.
    pub fn send<R: Wait>(&mut self, rt: &R, sending: FramesOut)
        requires { AreHostFrames sending.frames.items }
        ensures { IsMailed sending.frames.items sending.lost self.old self.new }
    {
        self.sender.send(rt, sending);
    }

    /// Sets the weather, as `Sender::set_weather` does.
    pub fn set_weather(&mut self, alloc: Global, weather: &[Weather]) -> Result<(), AllocError>
        ensures ok { OnOk result (SetsOwn weather.now self.old self.new) }
        ensures err { OnErr result (self.new ≡ self.old) }
    {
        self.sender.set_weather(alloc, weather)
    }

    /// Puts the held frames, as `Sender::release` does.
    pub fn release<R: Wait>(&mut self, rt: &R)
        ensures { IsLetGo self.old self.new }
    {
        self.sender.release(rt);
    }
}
