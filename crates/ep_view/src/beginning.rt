//! Which instances journals begin: those that are proposed or recovered.

ghost use Rattle.std.specs.Prelude.{◌≡◌, ◌≤◌, cond, IfOk, OnOk};
ghost use Rattle.ep_base.specs.Quorums.{size};
ghost use Rattle.ep_journal.specs.Entries.{AreJournals, entries_at};
ghost use Rattle.ep_view.specs.Kept.{keeps};
ghost use Rattle.ep_view.specs.Graphs.{with_begun, begun_in, begun_below, begun};

use crate::selection::Selection;
use crate::wanted::add_taken;
use ep_audit::entries_of;
use ep_base::{Deps, ReplicaId};
use ep_frame::Frame;
use ep_journal::{Entry, Event, Journals};
use std::alloc::{AllocError, Global};

// Adds the instance that a proposal takes, or that is recovered.
fn add_begun(
    alloc: Global,
    begun: &mut Deps,
    event: &Event,
    frames: &[Frame],
) -> Result<(), AllocError>
    ensures { OnOk result (begun.new ≡ with_begun event.now frames.now begun.old) }
{
    match event {
        Event::Propose { .. } => add_taken(alloc, begun, frames),
        Event::Recover(instance) => begun.insert(alloc, *instance),
        Event::Handle(_) | Event::GiveUp(_) | Event::Execute(_) => Ok(()),
    }
}

// Adds what the entry begins, if it is asked for.
fn add_entry(
    alloc: Global,
    begun: &mut Deps,
    part: &Selection,
    replica: ReplicaId,
    entry: &Entry,
) -> Result<(), AllocError>
    ensures { OnOk result (begun.new ≡ cond (keeps part.now replica entry.now) (with_begun entry.now.event entry.now.frames begun.old) begun.old) }
{
    if !part.keeps(replica, entry) {
        return Ok(());
    }
    add_begun(alloc, begun, &entry.event, entry.frames.as_slice())
}

// Adds what the entries of this replica begin that are asked for.
fn add_entries(
    alloc: Global,
    begun: &mut Deps,
    part: &Selection,
    replica: ReplicaId,
    entries: &[Entry],
) -> Result<(), AllocError>
    ensures { OnOk result (begun.new ≡ begun_in part.now replica entries.now begun.old) }
{
    for entry in entries {
        add_entry(alloc, begun, part, replica, entry)?;
    }
    Ok(())
}

// Adds what the entries of the replica of this number begin that are asked for.
fn add_replica(
    alloc: Global,
    begun: &mut Deps,
    journals: &Journals,
    part: &Selection,
    replica: u8,
) -> Result<(), AllocError>
    requires journals { AreJournals journals.now }
    requires replica { replica ≤ 6 }
    ensures { OnOk result (begun.new ≡ begun_in part.now replica (entries_at journals.now replica) begun.old) }
{
    match ReplicaId::new(replica) {
        Ok(replica) => add_entries(alloc, begun, part, replica, entries_of(journals, replica)),
        Err(_) => unreachable!(),
    }
}

/// The instances that the entries propose or recover that the part keeps.
pub(crate) fn begun(
    alloc: Global,
    journals: &Journals,
    part: &Selection,
) -> Result<Deps, AllocError>
    ensures { IfOk result (λ kept. kept ≡ begun part.now journals.now) }
{
    journals.are_journals();
    let mut begun = Deps::new(alloc);
    for replica in 0..journals.size().count() {
        add_replica(alloc, &mut begun, journals, part, replica)?;
    }
    Ok(begun)
}
