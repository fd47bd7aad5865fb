//! Lines of agendas.

use ep_base::{Command, InstanceId, ReplicaId};

/// What a line of a script asks a replica of its cluster to do, in a replay and in a run alike.
#[derive(Debug, Drop)]
pub enum AgendaLine {
    /// The client, of number 1 or more, proposes the command at the replica, which spares this one; the usual one if there is none.
    Propose {
        replica: ReplicaId,
        client: u32,
        command: Command,
        spared: Option<ReplicaId>,
    },
    /// The replica gives up on the fast path of the instance.
    GiveUp(ReplicaId, InstanceId),
    /// The replica recovers the instance.
    Recover(ReplicaId, InstanceId),
}
