//! Why a receipt doesn't agree with the journals.

ghost use Rattle.std.specs.Prelude.{◌≡◌, option_copied};
ghost use Rattle.ep_journal.specs.Entries.{AreJournals};
ghost use Rattle.ep_audit.specs.Lookups.{proposal_in};
ghost use Rattle.ep_explain.specs.Claims.{answer_in, has_seen, numbered, proposal_of};

use crate::handled::{add_clock, entry_line};
use crate::reasons::Reasons;
use ep_audit::{entries_of, entry_at, is_request, proposed};
use ep_base::{Answer, InstanceId};
use ep_journal::{Entry, Event, Journals};
use ep_rules::Receipt;

/// Adds why nobody proposed or executed what the receipt at this place, counted from 1, says.
pub(crate) fn add_unknown(
    journals: &Journals,
    receipts: &[Receipt],
    place: usize,
    reasons: &mut Reasons,
) {
    journals.are_journals();
    if let Some(receipt) = receipt_at(receipts, place) {
        add_false_claim(receipt, reasons);
        add_claim(receipt, reasons);
        add_proposal(receipt, proposal_of(journals, receipt), reasons);
        add_execution(journals, receipt, reasons);
    }
}

/// Adds why the proposal of the receipt at this place, counted from 1, isn't later than what its client had seen.
pub(crate) fn add_misordered(
    journals: &Journals,
    receipts: &[Receipt],
    place: usize,
    reasons: &mut Reasons,
) {
    journals.are_journals();
    if let Some(receipt) = receipt_at(receipts, place) {
        let proposal = proposal_of(journals, receipt);
        add_order(receipt, proposal, reasons);
        add_claim(receipt, reasons);
        add_proposal(receipt, proposal, reasons);
    }
}

/// The receipt at this place, counted from 1.
fn receipt_at(receipts: &[Receipt], place: usize) -> Option<&Receipt>
    ensures { option_copied result ≡ numbered receipts.now place }
{
    receipts.get(place.wrapping_sub(1))
}

/// What the receipt says.
fn add_claim(receipt: &Receipt, reasons: &mut Reasons) {
    let mut line = reasons.line(b"claimed: ");
    line.say_with(
        b"client # request # ",
        &[receipt.client as u64, receipt.request as u64],
    );
    line.instance(receipt.instance);
    line.say(b" ");
    line.answer(&receipt.answer);
    line.say_with(
        b", executed by replica # entry # stamp #, proposed after seen stamp #",
        &[
            receipt.replica.index() as u64,
            receipt.entry as u64,
            receipt.stamp,
            receipt.seen,
        ],
    );
    reasons.add(line);
}

/// The first entry that proposes the instance.
fn proposal_in(entries: &[Entry], instance: InstanceId) -> Option<&Entry>
    ensures { option_copied result ≡ proposal_in entries.now instance }
{
    for entry in entries {
        if proposed(entry) == Some(instance) {
            return Some(entry);
        }
    }
    None
}

/// What proposes the receipt's instance, in its leader's journal.
fn proposal_of<'a>(journals: &'a Journals, receipt: &Receipt) -> Option<&'a Entry>
    requires { AreJournals journals.now }
    ensures { option_copied result ≡ proposal_of journals.now receipt.now.instance }
{
    let instance = receipt.instance;
    proposal_in(entries_of(journals, instance.replica()), instance)
}

/// What proposes the receipt's instance.
fn add_proposal(receipt: &Receipt, proposal: Option<&Entry>, reasons: &mut Reasons) {
    let leader = receipt.instance.replica();
    match proposal {
        None => {
            let mut line = reasons.line(b"proposal: none; ");
            line.say_with(b"replica # proposes nothing as ", &[leader.index() as u64]);
            line.instance(receipt.instance);
            reasons.add(line);
        }
        Some(entry) => {
            let mut line = entry_line(
                b"proposal: replica # entry # stamp #: ",
                leader,
                entry,
                reasons,
            );
            line.say(proposal_fault(receipt, entry));
            reasons.add(line);
        }
    }
}

/// What of the proposal isn't as the receipt says.
fn proposal_fault(receipt: &Receipt, entry: &Entry) -> &'static [u8] {
    if !is_request(&entry.event, receipt.client, receipt.request) {
        b"; it is another request's"
    } else if receipt.seen >= entry.stamp.ticks() {
        b"; its stamp has to be above the receipt's seen stamp"
    } else {
        b""
    }
}

/// What executes the instance, by the receipt.
fn add_execution(journals: &Journals, receipt: &Receipt, reasons: &mut Reasons)
    requires { AreJournals journals.now }
{
    match entry_at(journals, receipt.replica, receipt.entry) {
        None => reasons.say_with(
            b"execution: none; replica # entry # isn't there: its journal ends with entry #",
            &[
                receipt.replica.index() as u64,
                receipt.entry as u64,
                entries_of(journals, receipt.replica).len() as u64,
            ],
        ),
        Some(entry) => add_found_execution(receipt, entry, reasons),
    }
}

fn add_found_execution(receipt: &Receipt, entry: &Entry, reasons: &mut Reasons) {
    let mut line = entry_line(
        b"execution: replica # entry # stamp #: ",
        receipt.replica,
        entry,
        reasons,
    );
    line.say(b"; for ");
    line.instance(receipt.instance);
    match answer_in(entry.done.as_slice(), receipt.instance) {
        None => line.say(b" it has no answer"),
        Some(answer) => {
            line.say(b" it answers ");
            line.answer(answer);
        }
    }
    reasons.add(line);
}

/// What was answered for the instance.
fn answer_in(done: &[(InstanceId, Answer)], instance: InstanceId) -> Option<&Answer>
    ensures { option_copied result ≡ answer_in done.now instance }
{
    for (other, answer) in done {
        if *other == instance {
            return Some(answer);
        }
    }
    None
}

/// What to do where a receipt is unknown, and what that usually means.
fn add_false_claim(receipt: &Receipt, reasons: &mut Reasons) {
    let replica = receipt.replica.index() as u64;
    reasons.say_with(
        b"do: ask client # for the answer to request # that replica # gave; if the receipt is that, copy the log of replica # again, and audit it with the others",
        &[
            receipt.client as u64,
            receipt.request as u64,
            replica,
            replica,
        ],
    );
    reasons.say_with(
        b"likely: a false claim: the receipt was made up, or changed after it was given",
        &[],
    );
    reasons.say_with(
        b"else: the log of replica # was copied before it gave the receipt; or it forgot: it lost the end of its journal, or was set back to an older copy",
        &[replica],
    );
}

/// What to do where a proposal isn't later than what its client had seen, and what that usually means: the leader stamped too low, or the
/// receipt has another seen stamp than the proposal.
fn add_order(receipt: &Receipt, proposal: Option<&Entry>, reasons: &mut Reasons) {
    match proposal {
        Some(entry) if has_seen(&entry.event, receipt.seen) => {
            add_clock(receipt.instance.replica(), reasons);
            reasons.say_with(
                b"since: a proposal has a greater stamp than the seen stamp that it comes with",
                &[],
            );
        }
        _ => {
            reasons.say_with(
                b"do: ask client # with which seen stamp it proposed request #: # is the receipt's, and not the proposal's",
                &[receipt.client as u64, receipt.request as u64, receipt.seen],
            );
            reasons.say_with(
                b"likely: a false claim: the client proposed with another seen stamp, or the receipt was changed",
                &[],
            );
        }
    }
}

/// Whether the event is a proposal with this seen stamp.
fn has_seen(event: &Event, stamp: u64) -> bool
    ensures { result ≡ has_seen event.now stamp }
{
    match event {
        Event::Propose { seen, .. } => *seen == stamp,
        _ => false,
    }
}
