//! Why a handled frame isn't as its sender's journal has it.

ghost use Rattle.ep_journal.specs.Entries.{AreJournals};

use crate::frames::add_difference;
use crate::reasons::Reasons;
use crate::side::Side;
use crate::wording::Wording;
use ep_audit::{entries_of, entry_at, sent_there};
use ep_base::ReplicaId;
use ep_frame::Frame;
use ep_journal::{Entry, Event, Journals};

/// Adds what is wrong with what the replica's entry of this number handles.
pub(crate) fn add_handling(
    journals: &Journals,
    replica: ReplicaId,
    number: u32,
    reasons: &mut Reasons,
) {
    journals.are_journals();
    if let Some(entry) = entry_at(journals, replica, number)
        && let Event::Handle(frame) = &entry.event
    {
        add_handled(journals, replica, entry, frame, reasons);
    }
}

/// What is wrong with the frame that the replica's entry handles, by what stands where its origin points.
fn add_handled(
    journals: &Journals,
    replica: ReplicaId,
    entry: &Entry,
    frame: &Frame,
    reasons: &mut Reasons,
)
    requires { AreJournals journals.now }
{
    match sent_there(journals, frame) {
        None => add_unsent(journals, replica, frame, reasons),
        Some(sent) if sent.as_slice() == frame.as_slice() => {
            add_early(replica, entry, frame, reasons);
        }
        Some(sent) => {
            add_forgot(replica, frame, reasons);
            add_changed(frame, sent, reasons);
            add_sender(journals, frame, reasons);
        }
    }
}

/// Nothing stands there: the sender has no such entry, or it doesn't send so many frames.
fn add_unsent(journals: &Journals, replica: ReplicaId, frame: &Frame, reasons: &mut Reasons)
    requires { AreJournals journals.now }
{
    let (sender, number) = (frame.from(), frame.origin().entry);
    match entry_at(journals, sender, number) {
        None => {
            add_behind(replica, frame, reasons);
            reasons.say_with(
                b"sent: nothing; replica # entry # isn't there: its journal ends with entry #",
                &[
                    sender.index() as u64,
                    number as u64,
                    entries_of(journals, sender).len() as u64,
                ],
            );
        }
        Some(entry) => {
            add_forgot(replica, frame, reasons);
            reasons.say_with(
                b"sent: nothing; replica # entry # sends # in all, counted from 0",
                &[
                    sender.index() as u64,
                    entry.number as u64,
                    entry.frames.as_slice().len() as u64,
                ],
            );
            add_sender(journals, frame, reasons);
        }
    }
}

/// What to do where the sender's journal ends too early, and what that usually means.
fn add_behind(replica: ReplicaId, frame: &Frame, reasons: &mut Reasons) {
    let sender = frame.from().index() as u64;
    let receiver = replica.index() as u64;
    reasons.say_with(
        b"do: copy the log of replica # again, and audit it with the others; if this stays, stop replica #, and see from which log it was last started, and whether its disk kept what was synced",
        &[sender, sender],
    );
    reasons.say_with(
        b"likely: the log of replica # was copied before that of replica #; or replica # forgot: it lost the end of its journal, or was set back to an older copy",
        &[sender, receiver, sender],
    );
    add_forged(receiver, frame, reasons);
}

/// What to do where the sender's journal has something else, and what that usually means.
fn add_forgot(replica: ReplicaId, frame: &Frame, reasons: &mut Reasons) {
    let sender = frame.from().index() as u64;
    let receiver = replica.index() as u64;
    reasons.say_with(
        b"do: stop replica #, and see from which log it was last started, and whether its disk kept what was synced; replica # only handled what came",
        &[sender, receiver],
    );
    reasons.say_with(
        b"likely: replica # forgot: it lost the end of its journal, or was set back to an older copy, and went on from there",
        &[sender],
    );
    add_forged(receiver, frame, reasons);
}

/// What else it can mean; and the frame.
fn add_forged(receiver: u64, frame: &Frame, reasons: &mut Reasons) {
    reasons.say_with(
        b"else: the frame was forged, or changed on its way to replica # or in a journal afterwards",
        &[receiver],
    );
    add_frame(b"handled: ", frame, reasons);
}

/// A frame, under this name.
fn add_frame(name: &[u8], frame: &Frame, reasons: &mut Reasons) {
    let mut line = reasons.line(name);
    line.frame(frame);
    reasons.add(line);
}

/// The other frame, and how it differs.
fn add_changed(handled: &Frame, sent: &Frame, reasons: &mut Reasons) {
    add_frame(b"sent: ", sent, reasons);
    let one = Side {
        name: b"handled",
        bytes: handled.as_slice(),
    };
    let other = Side {
        name: b"sent",
        bytes: sent.as_slice(),
    };
    add_difference(&one, &other, reasons);
}

/// What the sender's journal has as the entry that the frame names.
fn add_sender(journals: &Journals, frame: &Frame, reasons: &mut Reasons)
    requires { AreJournals journals.now }
{
    if let Some(entry) = entry_at(journals, frame.from(), frame.origin().entry) {
        let line = entry_line(b"replica # entry #: ", frame.from(), entry, reasons);
        reasons.add(line);
    }
}

/// The stamps aren't in order.
fn add_early(replica: ReplicaId, entry: &Entry, frame: &Frame, reasons: &mut Reasons) {
    add_clock(replica, reasons);
    reasons.say_with(
        b"since: an entry has a greater stamp than the frame that it handles",
        &[],
    );
    add_frame(b"handled: ", frame, reasons);
    reasons.say_with(
        b"stamps: the frame has #, and the entry that handles it #",
        &[frame.origin().stamp.ticks(), entry.stamp.ticks()],
    );
}

/// What to do where a replica stamped too low, and what that usually means.
pub(crate) fn add_clock(replica: ReplicaId, reasons: &mut Reasons) {
    let replica = replica.index() as u64;
    reasons.say_with(
        b"do: compare the journal of replica # with its log, and see what stamps its entries",
        &[replica],
    );
    reasons.say_with(
        b"likely: the journal of replica # was changed afterwards, or its program stamps by a clock of its own, which was set back",
        &[replica],
    );
}

/// A line of an entry: words with `#` for its replica, its number and its stamp, as far as they are wanted, and its event.
pub(crate) fn entry_line(
    form: &[u8],
    replica: ReplicaId,
    entry: &Entry,
    reasons: &Reasons,
) -> Wording {
    let mut line = reasons.line(b"");
    line.say_with(
        form,
        &[
            replica.index() as u64,
            entry.number as u64,
            entry.stamp.ticks(),
        ],
    );
    line.event(&entry.event);
    line
}
