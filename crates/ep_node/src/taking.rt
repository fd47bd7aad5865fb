//! Several events, taken one after the other.

ghost use Rattle.std.specs.Prelude.{◌≡◌, IfOk, OnErr};
ghost use Rattle.ep_node.specs.Nodes.{TakesEach};

use ep_journal::{Event, StepFault};
use ep_replica::Replica;
use std::alloc::{AllocError, Global};

/// The replica takes the events in order, and says of each whether it was taken. `Err` if there is no memory for the list;
/// then none was.
pub(crate) fn take_each(
    alloc: Global,
    replica: &mut Replica,
    events: Vec<Event>,
) -> Result<Vec<Result<(), StepFault>>, AllocError>
    ensures ok { IfOk result (λ reported. TakesEach replica.old events.items reported.items replica.new) }
    ensures err { OnErr result (replica.new ≡ replica.old) }
{
    let mut reported = Vec::new(alloc);
    reported.reserve(events.len())?;
    for event in events {
        reported.push_reserved(replica.take(event));
    }
    Ok(reported)
}
