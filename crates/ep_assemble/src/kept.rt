//! The logs of a generation, read one after the other.

ghost use Rattle.std.specs.Prelude.{◌≡◌, ◌↔◌, true, IfOk, IfErr};
ghost use Rattle.ep_base.specs.declared.version_kind.VersionKind.TheVariants.{V3};
ghost use Rattle.ep_log.specs.Reading.{IsRead};
ghost use Rattle.ep_assemble.specs.Generations.{AreKept, AreNotKept, IsNotKept, origin_in};

use crate::assembled::End;
use crate::generation_fault::GenerationFault;
use crate::logs::{Logs, read_one};
use crate::opened_cluster::OpenedCluster;
use crate::opened_log::OpenedLog;
use ep_log::{Origin, ReadLog};
use std::alloc::{AllocError, Global};

/// Reads the logs of the cluster, each of which names what its machine opened with.
pub(crate) fn read_kept(
    alloc: Global,
    cluster: &OpenedCluster,
    kept: &[OpenedLog],
) -> Result<Logs, GenerationFault>
    ensures ok { IfOk result (λ r. AreKept cluster.now kept.now r.journals.items r.ends.items) }
    ensures err { IfErr result (AreNotKept cluster.now kept.now) }
{
    let mut journals = Vec::new(alloc);
    let mut ends = Vec::new(alloc);
    for (place, one) in kept.iter().enumerate() {
        let log = read_opened(alloc, cluster, place, one)?;
        let end = End {
            whole: log.whole,
            is_torn: log.behind > 0,
        };
        journals.push(log.journal)?;
        ends.push(end)?;
    }
    Ok(Logs { journals, ends })
}

/// Reads the log at this place.
fn read_opened(
    alloc: Global,
    cluster: &OpenedCluster,
    place: usize,
    one: &OpenedLog,
) -> Result<ReadLog, GenerationFault>
    ensures ok { IfOk result (λ log. IsRead (origin_in cluster.now one.now) one.now.log.items log.version log.journal log.whole log.behind) }
    ensures size { IfOk result (λ log. log.journal.faults ≡ cluster.now.size) }
    ensures err { IfErr result (IsNotKept cluster.now place one.now) }
{
    let origin = origin_of(alloc, cluster, one.digest)?;
    let log = read_one(alloc, place, &one.log, &origin)?;
    if !is_of_size(cluster, &log) {
        drop(log);
        return Err(GenerationFault::LogSize(place));
    }
    Ok(log)
}

/// Whether the log is one of a cluster of this size.
fn is_of_size(cluster: &OpenedCluster, log: &ReadLog) -> bool
    ensures { (result ≡ true) ↔ (log.now.journal.faults ≡ cluster.now.size) }
{
    log.journal.size() == cluster.size
}

/// What the replica begins with whose log names what it opened with by this digest.
fn origin_of(alloc: Global, cluster: &OpenedCluster, digest: [u8; 32]) -> Result<Origin, AllocError>
    ensures { IfOk result (λ o. o ≡ record { version = V3 cluster.now.generation; opening = cluster.now.opening; digest = digest }) }
{
    let opening = cluster.opening.copy(alloc)?;
    Origin::of(alloc, cluster.generation, opening, digest)
}
