//! The sequence numbers of records, by instance.

ghost use Rattle.std.specs.Prelude.{◌≡◌, ◌≤◌, ◌<◌, ℕ, OnOk, length, slice_index_or, slice_set};
ghost use Rattle.ep_base.specs.Instances.{IsInstance};
ghost use Rattle.ep_rules.specs.InterferenceSet.{seq_of as vote_seq};
ghost use Rattle.ep_space.specs.Entries.{slot};
ghost use Rattle.ep_space.specs.Seqs.{recorded_seq};

use crate::table::slot_of;
use ep_base::InstanceId;
use ep_rules::Record;
use std::alloc::AllocError;

/// At each instance's slot the sequence number that its record votes for; 0 where it votes for none.
pub(crate) type Seqs = Vec<u32>;

/// The sequence number that the record votes for, 0 where there is none.
pub(crate) fn seq_of(written: &Option<Record>) -> u32
    ensures { result ≡ recorded_seq written.now }
{
    match written {
        None => 0,
        Some(record) => voted_seq(record),
    }
}

fn voted_seq(written: &Record) -> u32
    ensures { result ≡ vote_seq written.now.vote }
{
    match &written.vote {
        None => 0,
        Some(vote) => vote.decree.attrs.seq.number(),
    }
}

/// What stands at the instance's slot, 0 where there is no slot.
pub(crate) fn seq_at(seqs: &[u32], id: InstanceId) -> u32
    ensures value { result ≡ slice_index_or seqs.now (slot id) 0 }
    ensures in_range { IsInstance id }
{
    let slot = slot_of(id);
    if slot < seqs.len() { seqs[slot] } else { 0 }
}

/// Makes a slot for the instance, if it has none.
#[inline(always)]
pub(crate) fn widen(seqs: &mut Seqs, id: InstanceId) -> Result<(), AllocError>
    ensures slot { OnOk result (slot id < length seqs.new.items) }
    ensures longer { length seqs.old.items ≤ length seqs.new.items }
    ensures same { (k : ℕ) → slice_index_or seqs.new.items k 0 ≡ slice_index_or seqs.old.items k 0 }
{
    let slot = slot_of(id);
    if slot < seqs.len() {
        return Ok(());
    }
    seqs.resize(slot + 64, 0)
}

/// Writes this at the instance's slot.
#[inline(always)]
pub(crate) fn note_seq(seqs: &mut Seqs, id: InstanceId, seq: u32)
    requires { slot id < length seqs.old.items }
    ensures written { seqs.new.items ≡ slice_set seqs.old.items (slot id) seq }
    ensures in_range { IsInstance id }
{
    seqs[slot_of(id)] = seq;
}
