//! The logs of a generation and receipts, assembled to a bundle.

ghost use Rattle.std.specs.Prelude.{◌≡◌, IfOk, IfErr};
ghost use Rattle.ep_assemble.specs.Generations.{IsAssembledIn, IsAssembledOf, IsRefusedIn, IsUnassembled};
ghost use Rattle.ep_assemble.specs.Logs.{contents};

use crate::assembled::Assembled;
use crate::assembling::bundle_of;
use crate::collecting::collect;
use crate::generation_fault::GenerationFault;
use crate::kept::read_kept;
use crate::opened_cluster::OpenedCluster;
use crate::opened_log::OpenedLog;
use crate::openings::opened;
use ep_base::Generation;
use std::alloc::Global;

/// The bundle of version 3 of a generation, of what the folders of its machines have, in any order, and of the receipts that these files hold, in
/// their order. Each log is read with the map of all opening files and the least of their stamps: a replica closes by itself, so stamps may differ
/// from file to file.
pub fn assemble_generation(
    alloc: Global,
    generation: Generation,
    kept: &[OpenedLog],
    receipts: &[Vec<u8>],
) -> Result<Assembled, GenerationFault>
    ensures ok { IfOk result (λ a. IsAssembledOf generation kept.now (contents receipts.now) a.bundle.items a.ends.items a.receipt_ends.items) }
    ensures err { IfErr result (IsRefusedIn generation kept.now (contents receipts.now)) }
{
    match opened(alloc, generation, kept) {
        Ok(cluster) => match assemble_kept(alloc, &cluster, kept, receipts) {
            Ok(assembled) => Ok(assembled),
            Err(fault) => Err(fault),
        },
        Err(fault) => Err(fault),
    }
}

/// The bundle of the logs of this cluster, and of the receipts that these files hold.
fn assemble_kept(
    alloc: Global,
    cluster: &OpenedCluster,
    kept: &[OpenedLog],
    receipts: &[Vec<u8>],
) -> Result<Assembled, GenerationFault>
    ensures ok { IfOk result (λ a. IsAssembledIn cluster.now kept.now (contents receipts.now) a.bundle.items a.ends.items a.receipt_ends.items) }
    ensures err { IfErr result (IsUnassembled cluster.now kept.now (contents receipts.now)) }
{
    let logs = read_kept(alloc, cluster, kept)?;
    let journals = collect(logs.journals)?;
    let bundled = bundle_of(alloc, journals, receipts)?;
    Ok(Assembled {
        bundle: bundled.bundle,
        ends: logs.ends,
        receipt_ends: bundled.ends,
    })
}
