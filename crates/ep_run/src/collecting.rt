//! Up to which entries receipts were collected.

ghost use Rattle.std.specs.Prelude.{◌≡◌, ◌-◌, IfOk, length, map, replicate, slice_index_or};
ghost use Rattle.ep_run.specs.Rings.{entry_counts};

use ep_host::RingNode;
use ep_rules::Receipt;
use std::alloc::{AllocError, Global};

/// No entry of any of so many replicas.
pub(crate) fn none_collected(alloc: Global, count: usize) -> Result<Vec<u32>, AllocError>
    ensures { IfOk result (λ collected. collected.items ≡ replicate count 0) }
{
    let mut collected = Vec::new(alloc);
    for _ in 0..count {
        collected.push(0)?;
    }
    Ok(collected)
}

/// The last entry that gave one of the receipts, or this one where there are none.
pub(crate) fn last_entry(receipts: &[Receipt], before: u32) -> u32
    ensures { result ≡ slice_index_or (map (λ r. r.entry) receipts.now) (length receipts.now - 1) before }
{
    match receipts.last() {
        None => before,
        Some(receipt) => receipt.entry,
    }
}

/// The receipts of the replica at this place were collected up to this entry.
pub(crate) fn note_last(collected: &mut [u32], place: usize, entry: u32) {
    if let Some(last) = collected.get_mut(place) {
        *last = entry;
    }
}

/// How many entries the node has. A replica takes no more than a `u32` counts.
fn entry_count(node: &RingNode) -> Result<u32, AllocError>
    ensures { IfOk result (λ n. n ≡ length node.now.replica.entries) }
{
    match u32::try_from(node.replica().journal().entries().len()) {
        Ok(count) => Ok(count),
        Err(_) => Err(AllocError),
    }
}

/// How many entries each node has.
pub(crate) fn entry_counts(alloc: Global, nodes: &[RingNode]) -> Result<Vec<u32>, AllocError>
    ensures { IfOk result (λ counts. counts.items ≡ entry_counts nodes.now) }
{
    let mut counts = Vec::new(alloc);
    for node in nodes {
        let count = entry_count(node)?;
        counts.push(count)?;
    }
    Ok(counts)
}
