//! Lines of scripts for a replay.

use crate::agenda_line::AgendaLine;
use crate::messages::Messages;
use ep_base::{InstanceId, ReplicaId};

/// What a line of a script for a replay asks for.
#[derive(Debug, Drop)]
pub enum Line {
    /// What a run has on a replica's agenda.
    Agenda(AgendaLine),
    /// The replica executes the instance and what it depends on.
    Execute(ReplicaId, InstanceId),
    /// The messages are given to their receivers, one after another.
    Deliver(Messages),
    /// Each message that was sent and never given is given.
    Flush,
}
