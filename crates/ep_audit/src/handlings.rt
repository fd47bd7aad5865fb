//! Handled frames: each was sent, by an entry of a lower stamp.

ghost use Rattle.std.specs.Prelude.{◌≡◌, ◌≤◌};
ghost use Rattle.ep_journal.specs.Entries.{AreJournals, entries_at};
ghost use Rattle.ep_audit.specs.Handlings.{frame_fault, entry_fault, first_in, first_below};
ghost use Rattle.ep_audit.specs.Lookups.{sent_there};

use crate::audit_fault::AuditFault;
use crate::lookups::{entries_of, sent_there};
use ep_base::ReplicaId;
use ep_frame::Frame;
use ep_journal::{Entry, Event, Journals};

/// What is wrong with the frame that the replica's entry handles.
fn handled_fault(
    journals: &Journals,
    replica: ReplicaId,
    entry: &Entry,
    frame: &Frame,
) -> Option<AuditFault>
    requires journals { AreJournals journals.now }
    ensures { result ≡ frame_fault replica entry.now.number entry.now.stamp frame.now (sent_there journals.now frame.now) }
{
    let Some(sent) = sent_there(journals, frame) else {
        return Some(AuditFault::UnsentFrame(replica, entry.number));
    };
    if sent.as_slice() != frame.as_slice() {
        return Some(AuditFault::ChangedFrame(replica, entry.number));
    }
    if frame.origin().stamp < entry.stamp {
        None
    } else {
        Some(AuditFault::StampOrder(replica, entry.number))
    }
}

/// What is wrong with the frame that the replica's entry handles, if it handles one.
pub(crate) fn entry_fault(
    journals: &Journals,
    replica: ReplicaId,
    entry: &Entry,
) -> Option<AuditFault>
    requires journals { AreJournals journals.now }
    ensures { result ≡ entry_fault journals.now replica entry.now }
{
    match &entry.event {
        Event::Handle(frame) => handled_fault(journals, replica, entry, frame),
        _ => None,
    }
}

/// The first fault of these entries of the replica.
fn first_in(journals: &Journals, replica: ReplicaId, entries: &[Entry]) -> Option<AuditFault>
    requires journals { AreJournals journals.now }
    ensures { result ≡ first_in journals.now replica entries.now }
{
    for entry in entries {
        if let Some(fault) = entry_fault(journals, replica, entry) {
            return Some(fault);
        }
    }
    None
}

/// The first fault of the entries of the replica of this number.
fn first_at(journals: &Journals, replica: u8) -> Option<AuditFault>
    requires journals { AreJournals journals.now }
    requires replica { replica ≤ 6 }
    ensures { result ≡ first_in journals.now replica (entries_at journals.now replica) }
{
    match ReplicaId::new(replica) {
        Ok(replica) => first_in(journals, replica, entries_of(journals, replica)),
        Err(_) => unreachable!(),
    }
}

/// The first fault of the entries of as many replicas, by replica and entry.
pub(crate) fn first_handling(journals: &Journals, count: u8) -> Option<AuditFault>
    requires journals { AreJournals journals.now }
    requires replicas { count ≤ 7 }
    ensures { result ≡ first_below journals.now count }
{
    let mut found = None;
    for replica in 0..count {
        if found.is_none() {
            found = first_at(journals, replica);
        }
    }
    found
}
