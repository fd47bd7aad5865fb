//! A replica behind its lock, and what it sends and receives by.

ghost use Rattle.std.specs.Prelude.{◌≡◌, ◌<◌, ◌≤◌, length, All, IfOk};
ghost use Rattle.ep_base.specs.Quorums.{size};
ghost use Rattle.ep_host.specs.HostFrames.{AreHostFrames};
ghost use Rattle.ep_host.specs.Outboxes.{IsOpen};
ghost use Rattle.ep_host.specs.Rooms.{HaveRoom};
ghost use Rattle.ep_replica.specs.Kept.{start_of};

use crate::frames_out::FramesOut;
use crate::host_frame::HostFrame;
use crate::host_replica::HostReplica;
use crate::host_sender::HostSender;
use crate::port::Port;
use crate::start::Start;
use ep_base::Size;
use ep_replica::Replica;
use std::alloc::{AllocError, Global};
use std::sync::{Mutex, Wait};

/// A replica behind its lock.
pub type ReplicaCell = Mutex<Replica>;

/// A replica of a host behind its lock, and what it sends and receives by, behind the sending lock.
#[derive(Drop)]
pub struct Seat<S: Start> {
    pub cell: Mutex<HostReplica<S>>,
    pub sender: Mutex<HostSender<S>>,
}

impl<S: Start> Seat<S> {
    /// The replica's, of whose cluster these are the inboxes, in order.
    pub fn new(
        alloc: Global,
        replica: Replica,
        inboxes: &[Port<HostFrame>],
    ) -> Result<Seat<S>, AllocError>
        requires start { start_of replica ≡ S.start }
        requires here { replica.me < size replica.faults }
        requires inboxes { length inboxes.now ≡ size replica.faults }
        requires room { HaveRoom S.room inboxes.now }
    {
        match HostSender::new(alloc, replica.me(), inboxes) {
            Ok(sender) => Ok(Seat {
                cell: Mutex::new(HostReplica::new(replica)),
                sender: Mutex::new(sender),
            }),
            Err(fault) => {
                drop(replica);
                Err(fault)
            }
        }
    }
}

/// A new inbox for each replica of the cluster, for so many frames.
pub fn inboxes_of(
    alloc: Global,
    cluster: Size,
    capacity: usize,
) -> Result<Vec<Port<HostFrame>>, AllocError>
    requires { 1 ≤ capacity }
    ensures count { IfOk result (λ inboxes. length inboxes.items ≡ size cluster) }
    ensures new { IfOk result (λ inboxes. All (IsOpen capacity) inboxes.items) }
{
    let mut inboxes = Vec::new(alloc);
    for _ in 0..cluster.count() {
        inboxes.push(Port::open(alloc, capacity)?)?;
    }
    Ok(inboxes)
}

/// Sends frames of the replica of this seat, in order, under its sending lock, in its weather.
pub fn send<S: Start, R: Wait>(rt: &R, from: &Seat<S>, sending: FramesOut)
    requires { AreHostFrames sending.frames.items }
{
    from.sender.lock(rt).send(rt, sending);
}
