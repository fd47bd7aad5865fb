//! What arguments say.

ghost use Rattle.std.specs.Prelude.{◌≡◌, ◌↔◌, IfSome, IfOk, IsNone, option_copied};
ghost use Rattle.std.specs.Option.{option_map};
ghost use Rattle.ep_library.specs.Arguments.{given, instance_in, log_given, part, HasSeat, IsPlace, IsSeat};

use crate::instance::Instance;
use ep_base::{InstanceId, ReplicaId, Size};
use ep_embedded::Seat;
use std::alloc::{AllocError, Global};

/// The place of this replica in a cluster of this many.
pub(crate) fn seat_of(replicas: u8, replica: u8) -> Option<Seat>
    ensures some { IfSome result (IsSeat replicas replica) }
    ensures none { IsNone result ↔ ¬ HasSeat replicas replica }
{
    let cluster = Size::new(replicas).ok()?;
    let me = ReplicaId::new(replica).ok()?;
    Some(Seat { cluster, me })
}

/// The bytes, if there are any.
pub(crate) fn given(alloc: Global, bytes: &[u8]) -> Result<Option<Vec<u8>>, AllocError>
    ensures { IfOk result (λ own. option_map (λ v. v.items) own ≡ given bytes.now) }
{
    if bytes.is_empty() {
        return Ok(None);
    }
    Ok(Some(Vec::from_slice(alloc, bytes)?))
}

/// The log from which a replica goes on; none of a new one.
pub(crate) fn log_given(
    alloc: Global,
    is_new: u8,
    log: &[u8],
) -> Result<Option<Vec<u8>>, AllocError>
    ensures { IfOk result (λ own. option_map (λ v. v.items) own ≡ log_given is_new log.now) }
{
    if is_new == 0 {
        return Ok(Some(Vec::from_slice(alloc, log)?));
    }
    Ok(None)
}

/// A part that is there or isn't.
pub(crate) fn part<'a>(has: u8, bytes: &'a [u8]) -> Option<&'a [u8]>
    ensures { option_copied result ≡ part has bytes.now }
{
    if has == 0 { None } else { Some(bytes) }
}

/// The instance, if there is such.
pub(crate) fn instance_in(instance: Instance) -> Option<InstanceId>
    ensures some { IfSome result (λ i. i ≡ instance_in instance) }
    ensures none { IsNone result ↔ ¬ IsPlace instance }
{
    let leader = ReplicaId::new(instance.replica).ok()?;
    InstanceId::new(leader, instance.number).ok()
}

/// The instance, as C has it.
pub(crate) fn instance_out(instance: InstanceId) -> Instance
    ensures value { instance_in result ≡ instance }
    ensures place { IsPlace result }
{
    Instance {
        number: instance.number(),
        replica: instance.replica().index(),
    }
}
