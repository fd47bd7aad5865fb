//! Why an entry isn't its replica's next step: the bundle is read again, up to that entry.

ghost use Rattle.std.specs.Prelude.{◌<◌};
ghost use Rattle.ep_base.specs.Quorums.{size};
ghost use Rattle.ep_journal.specs.Openings.{OpensIn};

use crate::reasons::Reasons;
use crate::step::{MOST_ENTRIES, add_draft};
use ep_base::{Noted, ReplicaId, Source};
use ep_bundle::{
    BundleFault, BundleHeader, JournalDialect, read_count, read_draft, read_entry, read_header,
    read_journal,
};
use ep_journal::Journal;
use std::alloc::{AllocError, Global};

/// Adds why the replica's entry of this number, in these bytes, isn't its next step.
pub(crate) fn add_step(
    alloc: Global,
    bytes: &[u8],
    replica: ReplicaId,
    number: u32,
    reasons: &mut Reasons,
) {
    reasons.say_with(
        b"do: make the bundle anew from the logs by `epaxos collect`, which names a log that is at fault",
        &[],
    );
    reasons.say_with(
        b"likely: this entry, or one before it, was changed after it was written, or one before it is missing",
        &[],
    );
    let reported = add_entry(alloc, &mut Noted::new(bytes), replica, number, reasons);
    if let Err(BundleFault::Memory) = reported {
        reasons.cut();
    }
}

/// Reads up to the entry, and says what is wrong with it. The bytes were read once, so `ReadFailed` never comes.
fn add_entry<S: Source>(
    alloc: Global,
    source: &mut S,
    replica: ReplicaId,
    number: u32,
    reasons: &mut Reasons,
) -> Result<(), BundleFault> {
    let mut place = 0;
    let mut journal = read_up_to(alloc, source, &mut place, replica, number)?;
    let reported = add_next(alloc, source, &mut place, &mut journal, reasons);
    drop(journal);
    reported
}

/// Reads the entry, and says what is wrong with it as the journal's next one.
fn add_next<S: Source>(
    alloc: Global,
    source: &mut S,
    place: &mut u64,
    journal: &mut Journal,
    reasons: &mut Reasons,
) -> Result<(), BundleFault> {
    let dialect = JournalDialect {
        version: journal.version(),
        size: journal.size(),
        me: journal.me(),
    };
    let draft = read_draft(alloc, source, place, &dialect)?;
    add_draft(alloc, journal, draft, reasons);
    Ok(())
}

/// Reads a bundle up to the replica's entry of this number, and gives that replica's journal before it.
fn read_up_to<S: Source>(
    alloc: Global,
    source: &mut S,
    place: &mut u64,
    replica: ReplicaId,
    number: u32,
) -> Result<Journal, BundleFault> {
    let header = read_header(alloc, source, place)?;
    let begun = begin_journal(alloc, source, place, &header, replica);
    drop(header);
    let mut journal = begun?;
    match pass_entries(alloc, source, place, &mut journal, number) {
        Ok(()) => Ok(journal),
        Err(fault) => {
            drop(journal);
            Err(fault)
        }
    }
}

/// Reads the journals of lower replicas, and gives the replica's journal before its first entry.
fn begin_journal<S: Source>(
    alloc: Global,
    source: &mut S,
    place: &mut u64,
    header: &BundleHeader,
    replica: ReplicaId,
) -> Result<Journal, BundleFault>
    requires { OpensIn header.now.version header.now.opening }
{
    if replica.index() >= header.cluster.count() {
        return Err(BundleFault::ReadFailed);
    }
    for lower in 0..replica.index() {
        pass_journal(alloc, source, place, header, lower)?;
    }
    read_count(source, place, replica)?;
    Ok(header.journal(alloc, replica)?)
}

/// Reads the journal of the replica of this number.
fn pass_journal<S: Source>(
    alloc: Global,
    source: &mut S,
    place: &mut u64,
    header: &BundleHeader,
    index: u8,
) -> Result<(), BundleFault>
    requires index { index < size header.now.cluster }
    requires opens { OpensIn header.now.version header.now.opening }
{
    let Ok(replica) = ReplicaId::new(index) else {
        return Err(BundleFault::ReadFailed);
    };
    let mut journal = header.journal(alloc, replica)?;
    let read = read_journal(alloc, source, place, &mut journal);
    drop(journal);
    read
}

/// Reads the journal's entries before the one of this number.
fn pass_entries<S: Source>(
    alloc: Global,
    source: &mut S,
    place: &mut u64,
    journal: &mut Journal,
    number: u32,
) -> Result<(), BundleFault> {
    for _ in 1..number {
        pass_entry(alloc, source, place, journal)?;
    }
    Ok(())
}

/// Reads the journal's next entry.
fn pass_entry<S: Source>(
    alloc: Global,
    source: &mut S,
    place: &mut u64,
    journal: &mut Journal,
) -> Result<(), BundleFault> {
    if journal.entries().len() >= MOST_ENTRIES {
        return Err(BundleFault::ReadFailed);
    }
    read_entry(alloc, source, place, journal)
}
