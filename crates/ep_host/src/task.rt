//! What a node is to do.

ghost use Rattle.std.specs.Prelude.{◌≡◌};
ghost use Rattle.ep_host.specs.Tasks.{event_of};

use ep_base::{Command, InstanceId, ReplicaId};
use ep_journal::Event;

/// What a node is to do.
#[derive(Drop)]
pub enum Task {
    /// A client's request, to be proposed.
    Propose {
        client: u32,
        request: u32,
        command: Command,
        /// The greatest stamp that the client had seen.
        seen: u64,
        /// The replica that isn't asked, none for the usual one.
        spared: Option<ReplicaId>,
    },
    /// Waits no longer for the fast quorum of the instance, which the replica leads.
    GiveUp(InstanceId),
    /// Takes the instance over, by explicit prepare.
    Recover(InstanceId),
}

impl Task {
    /// The event.
    pub(crate) fn into_event(self) -> Event
        ensures { result ≡ event_of self }
    {
        match self {
            Task::Propose {
                client,
                request,
                command,
                seen,
                spared,
            } => Event::Propose {
                client,
                request,
                command,
                seen,
                spared,
            },
            Task::GiveUp(instance) => Event::GiveUp(instance),
            Task::Recover(instance) => Event::Recover(instance),
        }
    }
}
