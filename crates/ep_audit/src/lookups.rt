//! What is looked up in journals, by places.

ghost use Rattle.std.specs.Prelude.{◌≡◌, option_copied, slice_get};
ghost use Rattle.ep_journal.specs.Entries.{AreJournals, entries_at};
ghost use Rattle.ep_audit.specs.Lookups.{entry_at, sent_there, proposed, is_request, has_answer, has_done};

use ep_base::{Answer, InstanceId, ReplicaId};
use ep_frame::Frame;
use ep_journal::{Entry, Event, Journals};

/// The entries of this replica; none where it is no replica of the cluster.
pub fn entries_of(journals: &Journals, replica: ReplicaId) -> &[Entry]
    requires { AreJournals journals.now }
    ensures { result.now ≡ entries_at journals.now replica }
{
    match journals.get(replica) {
        Some(journal) => journal.entries(),
        None => &[],
    }
}

/// The entry at this place.
pub(crate) fn entry_in(entries: &[Entry], place: usize) -> Option<&Entry>
    ensures { option_copied result ≡ slice_get entries.now place }
{
    entries.get(place)
}

/// The entry of this number, from 1, of a replica's.
fn numbered(entries: &[Entry], number: u32) -> Option<&Entry>
    ensures { option_copied result ≡ entry_at entries.now number }
{
    if number == 0 {
        return None;
    }
    entries.get(number as usize - 1)
}

/// The replica's entry of this number, from 1.
pub fn entry_at(journals: &Journals, replica: ReplicaId, number: u32) -> Option<&Entry>
    requires { AreJournals journals.now }
    ensures { option_copied result ≡ entry_at (entries_at journals.now replica) number }
{
    numbered(entries_of(journals, replica), number)
}

/// The frame that stands where the sender, the entry and the place of this one say.
pub fn sent_there<'a>(journals: &'a Journals, frame: &Frame) -> Option<&'a Frame>
    requires { AreJournals journals.now }
    ensures { option_copied result ≡ sent_there journals.now frame.now }
{
    let origin = frame.origin();
    let entry = entry_at(journals, frame.from(), origin.entry)?;
    entry.frames.as_slice().get(origin.out as usize)
}

/// The instance as which the entry proposes a command: the one that its first frame is about.
pub fn proposed(entry: &Entry) -> Option<InstanceId>
    ensures { result ≡ proposed entry.now.event entry.now.frames }
{
    match &entry.event {
        Event::Propose { .. } => {
            let first = entry.frames.as_slice().first()?;
            Some(first.instance())
        }
        _ => None,
    }
}

/// Whether the event is this client's request.
pub fn is_request(event: &Event, client: u32, request: u32) -> bool
    ensures { result ≡ is_request client request event.now }
{
    match event {
        Event::Propose {
            client: other_client,
            request: other_request,
            ..
        } => *other_client == client && *other_request == request,
        _ => false,
    }
}

/// Whether the instance was executed, with this answer.
fn has_answer(done: &[(InstanceId, Answer)], instance: InstanceId, answer: &Answer) -> bool
    ensures { result ≡ has_answer done.now instance answer.now }
{
    for (other, reported) in done {
        if *other == instance && reported.is_same(answer) {
            return true;
        }
    }
    false
}

/// Whether the entry of this number has this stamp, and executed the instance with this answer.
pub(crate) fn has_done(
    entries: &[Entry],
    number: u32,
    stamp: u64,
    instance: InstanceId,
    answer: &Answer,
) -> bool
    ensures { result ≡ has_done (entry_at entries.now number) stamp instance answer.now }
{
    match numbered(entries, number) {
        Some(entry) => entry.stamp.ticks() == stamp
            && has_answer(entry.done.as_slice(), instance, answer),
        None => false,
    }
}
