//! What a node says of its entries.

ghost use Rattle.std.specs.Prelude.{◌≡◌, ◌≤◌, ◌++◌, ℕ, List, None, drop, is_some, length, min, IfOk, OnOk};
ghost use Rattle.ep_journal.specs.Entries.{entries_of, frames_of};
ghost use Rattle.ep_node.specs.Reporting.{new_commit, commits_by, learnt_by, about_by, executed_by, is_number, noted, open_as, AreFirst, AreOpen};
ghost use Rattle.ep_replica.specs.Pending.{state_of};
ghost use Rattle.ep_replica.specs.Receipts.{receipts_after};
ghost use Rattle.ep_rules.specs.Steps.{order_of};

use crate::first_entries::FirstEntries;
use crate::learning::learnt_by;
use crate::notes::Notes;
use crate::open_instance::OpenInstance;
use crate::ready::Ready;
use ep_base::InstanceId;
use ep_frame::Frame;
use ep_journal::Entry;
use ep_replica::Replica;
use std::alloc::{AllocError, Global};

/// The entries after the first `count`.
fn after(entries: &[Entry], count: u32) -> &[Entry]
    ensures { result.now ≡ drop count entries.now }
{
    let first = entries.len().min(count as usize);
    &entries[first..]
}

/// Adds the frames that the entry sends.
fn add_frames(entry: &Entry, frames: &mut Vec<Frame>) -> Result<(), AllocError>
    ensures { OnOk result (frames.new.items ≡ frames.old.items ++ entry.now.frames) }
{
    for frame in entry.frames.as_slice() {
        frames.push(frame.clone()?)?;
    }
    Ok(())
}

/// The frames that these entries send.
fn frames_of(alloc: Global, entries: &[Entry]) -> Result<Vec<Frame>, AllocError>
    ensures { IfOk result (λ frames. frames.items ≡ frames_of entries.now) }
{
    let mut frames = Vec::new(alloc);
    for entry in entries {
        add_frames(entry, &mut frames)?;
    }
    Ok(frames)
}

/// Adds the instances that the entry executes.
fn add_executed(entry: &Entry, executed: &mut Vec<InstanceId>) -> Result<(), AllocError>
    ensures { OnOk result (executed.new.items ≡ executed.old.items ++ order_of entry.now.done) }
{
    for done in entry.done.as_slice() {
        executed.push(done.0)?;
    }
    Ok(())
}

/// The instances that these entries execute.
fn executed_by(alloc: Global, entries: &[Entry]) -> Result<Vec<InstanceId>, AllocError>
    ensures { IfOk result (λ executed. executed.items ≡ executed_by entries.now) }
{
    let mut executed = Vec::new(alloc);
    for entry in entries {
        add_executed(entry, &mut executed)?;
    }
    Ok(executed)
}

/// Whether the instance has this number in the table.
fn is_noted(table: &FirstEntries, instance: InstanceId, number: u32) -> bool
    ensures { result ≡ is_number number (noted table.now instance) }
{
    match table.get(instance) {
        Some(first) => first == number,
        None => false,
    }
}

/// Adds the instance that the entry commits, as the first of all.
fn add_commit(
    table: &FirstEntries,
    entry: &Entry,
    committed: &mut Vec<InstanceId>,
) -> Result<(), AllocError>
    ensures { (all : List Entry) → AreFirst learnt_by all table.now → OnOk result (committed.new.items ≡ committed.old.items ++ new_commit all entry.now.number (learnt_by entry.now)) }
{
    let Some(instance) = learnt_by(entry) else {
        return Ok(());
    };
    if is_noted(table, instance, entry.number) {
        committed.push(instance)?;
    }
    Ok(())
}

/// The instances that these entries commit.
fn commits_by(
    alloc: Global,
    table: &FirstEntries,
    entries: &[Entry],
) -> Result<Vec<InstanceId>, AllocError>
    ensures { (all : List Entry) → AreFirst learnt_by all table.now → IfOk result (λ committed. committed.items ≡ commits_by all entries.now) }
{
    let mut committed = Vec::new(alloc);
    for entry in entries {
        add_commit(table, entry, &mut committed)?;
    }
    Ok(committed)
}

/// The open instance, as it is reported.
fn open_as(replica: &Replica, table: &FirstEntries, instance: InstanceId) -> OpenInstance
    requires { AreFirst about_by replica.now.entries table.now }
    ensures { result ≡ open_as replica.now instance }
{
    let _number = instance.number();
    OpenInstance {
        instance,
        since: table.get(instance),
        leads: replica.leads(instance),
    }
}

/// The least open instances: this many, or all if there are fewer.
fn open_in(
    alloc: Global,
    replica: &Replica,
    table: &FirstEntries,
    most: u8,
) -> Result<Vec<OpenInstance>, AllocError>
    requires { AreFirst about_by replica.now.entries table.now }
    ensures { IfOk result (λ reported. AreOpen replica.now most None reported.items) }
{
    let mut reported = Vec::new(alloc);
    let mut above = None;
    for _ in 0..most {
        let Some(instance) = replica.next_open(above) else {
            return Ok(reported);
        };
        reported.push(open_as(replica, table, instance))?;
        above = Some(instance);
    }
    Ok(reported)
}

/// What is reported of the replica's entries after the first `count`.
pub(crate) fn ready_of(
    alloc: Global,
    replica: &Replica,
    notes: &Notes,
    count: u32,
    most: u8,
) -> Result<Ready, AllocError>
    requires about { AreFirst about_by replica.now.entries notes.now.about }
    requires commits { AreFirst learnt_by replica.now.entries notes.now.commits }
    ensures entries { IfOk result (λ r. r.entries ≡ length replica.now.entries) }
    ensures frames { IfOk result (λ r. r.frames.items ≡ frames_of (drop count replica.now.entries)) }
    ensures receipts { IfOk result (λ r. r.receipts.items ≡ receipts_after replica.now.me count (entries_of replica.now.entries)) }
    ensures committed { IfOk result (λ r. r.committed.items ≡ commits_by replica.now.entries (drop count replica.now.entries)) }
    ensures executed { IfOk result (λ r. r.executed.items ≡ executed_by (drop count replica.now.entries)) }
    ensures still_open { IfOk result (λ r. AreOpen replica.now most None r.still_open.items) }
    ensures sealed { IfOk result (λ r. r.is_sealed ≡ is_some (state_of replica.now).store.seal) }
{
    let entries = replica.journal().entries();
    let Ok(all) = u32::try_from(entries.len()) else {
        return Err(AllocError);
    };
    let new = after(entries, count);
    // What is dear to drop at an exit is made last.
    let committed = commits_by(alloc, &notes.commits, new)?;
    let executed = executed_by(alloc, new)?;
    let still_open = open_in(alloc, replica, &notes.about, most)?;
    let receipts = replica.receipts_after(alloc, count)?;
    let frames = frames_of(alloc, new)?;
    Ok(Ready {
        entries: all,
        frames,
        receipts,
        committed,
        executed,
        still_open,
        is_sealed: replica.seal().is_some(),
    })
}
