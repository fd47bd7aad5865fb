//! The replicas of a world.

ghost use Rattle.std.specs.Prelude.{◌≡◌, ◌<◌, ◌≤◌, ℕ, [], slice_get, slice_index_or, option_copied, IfOk};
ghost use Rattle.ep_base.specs.Quorums.{size};
ghost use Rattle.ep_base.specs.Versions.{version_number};
ghost use Rattle.ep_frame.specs.Meaning.{origin_at};
ghost use Rattle.ep_journal.specs.Entries.{IsJournal, all_entries, first_opening, frame_in};
ghost use Rattle.ep_world.specs.Played.{numbered};
ghost use Rattle.ep_replica.specs.Kept.{first_version};
ghost use Rattle.ep_world.specs.Replicas.{AreAll, AreTheirs};

use crate::place::Place;
use ep_base::{ReplicaId, Size};
use ep_frame::Frame;
use ep_journal::{Beginning, Entry, Journal};
use ep_replica::Replica;
use std::alloc::{AllocError, Global};

/// The replicas of a cluster of this size, which begin so, before any event.
pub(crate) fn all_opened(
    alloc: Global,
    cluster: Size,
    beginning: &Beginning,
) -> Result<Vec<Replica>, AllocError>
    requires { 2 ≤ version_number beginning.now.version }
    ensures replicas { IfOk result (λ ks. AreAll cluster ks.items) }
    ensures version { IfOk result (λ ks. first_version ks.items ≡ beginning.now.version) }
    ensures opening { IfOk result (λ ks. first_opening ks.items ≡ beginning.now.opening) }
    ensures entries { IfOk result (λ ks. (r : ℕ) → slice_index_or (all_entries ks.items) r [] ≡ []) }
{
    let mut replicas = Vec::new(alloc);
    for number in 0..cluster.count() {
        let replica = Replica::member(alloc, cluster, number, beginning)?;
        replicas.push(replica)?;
    }
    Ok(replicas)
}

/// The replica of this number.
pub(crate) fn find(replicas: &[Replica], replica: ReplicaId) -> Option<&Replica>
    ensures { option_copied result ≡ slice_get replicas.now replica }
{
    replicas.get(replica.index() as usize)
}

/// The entry of this number, from 1.
fn numbered_entry(entries: &[Entry], number: u32) -> Option<&Entry>
    ensures { option_copied result ≡ numbered entries.now number }
{
    if number == 0 {
        return None;
    }
    entries.get(number as usize - 1)
}

/// The place of the message of this number, from 1.
pub(crate) fn numbered_place(messages: &[Place], message: u64) -> Option<Place>
    ensures { result ≡ numbered messages.now message }
{
    if message == 0 || message > messages.len() as u64 {
        return None;
    }
    Some(messages[message as usize - 1])
}

/// The frame at this place among an entry's, from 0.
fn nth_frame(frames: &[Frame], out: u16) -> Option<&Frame>
    ensures { option_copied result ≡ slice_get frames.now out }
{
    frames.get(out as usize)
}

/// The entry of this number, from 1, of the replica.
#[tactic(auto, using(crate::proofs::Kept::entries_there, crate::proofs::Kept::no_entry_there))]
pub(crate) fn entry_at<'a>(
    replicas: &'a [Replica],
    replica: ReplicaId,
    number: u32,
) -> Option<&'a Entry>
    ensures { option_copied result ≡ numbered (slice_index_or (all_entries replicas.now) replica []) number }
{
    let Some(replica) = find(replicas, replica) else {
        return None;
    };
    numbered_entry(replica.journal().entries(), number)
}

/// The frame at this place.
pub(crate) fn frame_at<'a>(replicas: &'a [Replica], place: Place) -> Option<&'a Frame>
    ensures { option_copied result ≡ frame_in (numbered (slice_index_or (all_entries replicas.now) place.replica []) place.entry) place.out }
{
    let Some(entry) = entry_at(replicas, place.replica, place.entry) else {
        return None;
    };
    nth_frame(entry.frames.as_slice(), place.out)
}

/// The receiver of a frame.
pub(crate) fn receiver(frame: &Frame) -> ReplicaId
    ensures { result ≡ (origin_at frame.now).to }
{
    frame.origin().to
}

/// The journal of a replica.
fn journal_of(replica: Replica) -> Journal
    ensures value { result ≡ replica }
    ensures run { IsJournal result.version result.opening result.faults result.me result.entries }
{
    let journal = replica.into_journal();
    // Nothing is done with the entries: that they are a local run is known by asking for them.
    let _run = journal.entries();
    journal
}

/// The journals of the replicas.
pub(crate) fn into_journals(
    alloc: Global,
    replicas: Vec<Replica>,
) -> Result<Vec<Journal>, AllocError>
    ensures { IfOk result (λ js. AreTheirs replicas.items js.items) }
{
    let mut journals = Vec::new(alloc);
    for replica in replicas {
        journals.push(journal_of(replica))?;
    }
    Ok(journals)
}
