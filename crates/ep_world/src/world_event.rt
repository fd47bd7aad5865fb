//! Events of a world.

ghost use Rattle.std.specs.Prelude.{◌≡◌, IfOk};

use ep_base::{Command, InstanceId, ReplicaId};
use std::alloc::{AllocError, Global};

/// An event at one of the replicas, or the delivery of a message.
#[derive(Drop)]
pub enum WorldEvent {
    /// A client's request at a replica, the client and the request from 1; `seen` is the greatest stamp that the client knows of, 0 where none;
    /// `spared` is the replica that isn't asked, none for the usual one.
    Propose {
        replica: ReplicaId,
        client: u32,
        request: u32,
        command: Command,
        seen: u64,
        spared: Option<ReplicaId>,
    },
    /// The replica, which leads the instance, waits no longer for its fast quorum.
    GiveUp {
        replica: ReplicaId,
        instance: InstanceId,
    },
    /// The replica takes over the instance, by explicit prepare.
    Recover {
        replica: ReplicaId,
        instance: InstanceId,
    },
    /// The replica executes the instance, and before it all that it depends on.
    Execute {
        replica: ReplicaId,
        instance: InstanceId,
    },
    /// The message of this number, from 1 in the order sent, is given to its receiver, as often as wanted.
    Deliver(u64),
}

impl WorldEvent {
    /// A copy of the event.
    pub fn copy(&self, alloc: Global) -> Result<WorldEvent, AllocError>
        ensures { IfOk result (λ e. e ≡ self.now) }
    {
        match self {
            WorldEvent::Propose {
                replica,
                client,
                request,
                command,
                seen,
                spared,
            } => Ok(WorldEvent::Propose {
                replica: *replica,
                client: *client,
                request: *request,
                command: command.copy(alloc)?,
                seen: *seen,
                spared: *spared,
            }),
            WorldEvent::GiveUp { replica, instance } => Ok(WorldEvent::GiveUp {
                replica: *replica,
                instance: *instance,
            }),
            WorldEvent::Recover { replica, instance } => Ok(WorldEvent::Recover {
                replica: *replica,
                instance: *instance,
            }),
            WorldEvent::Execute { replica, instance } => Ok(WorldEvent::Execute {
                replica: *replica,
                instance: *instance,
            }),
            WorldEvent::Deliver(message) => Ok(WorldEvent::Deliver(*message)),
        }
    }
}
