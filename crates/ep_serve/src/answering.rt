//! What an answer reports, once all that its node took is on the disk.

ghost use Rattle.std.specs.Prelude.{◌≡◌, ◌<◌, ◌≤◌, ◌+◌, ◌++◌, ◌^◌, [], true, ℕ, List, Some, OnOk, IfOk, length, slice_get};
ghost use Rattle.std.specs.Io.KnownBytes.{Appends};
ghost use Rattle.ep_frame.specs.Fields.{number_bytes};
ghost use Rattle.ep_journal.specs.declared.entry.Entry.{Entry as Written};
ghost use Rattle.ep_serve.specs.Answering.{reported_entry, reported_from, AllAnswered, AreAnswersTo, AnswersEach, AnswersOne};
ghost use Rattle.ep_serve.specs.declared.pending_answer.PendingAnswer.TheVariants.{Synced, Taken};
ghost use Rattle.ep_wire.specs.Answers.{entry_bytes, taken_bytes};

use crate::answer_fault::AnswerFault;
use crate::asked::{
    put_asked_handled, put_asked_interfering, put_asked_lead, put_asked_open, put_asked_read,
    put_asked_state, put_asked_value,
};
use crate::pending_answer::PendingAnswer;
use crate::readying::put_ready;
use ep_base::{Noted, Sink};
use ep_bundle::{learn_entry, put_u32};
use ep_device::Device;
use ep_node::Node;
use ep_replica::Replica;
use ep_rules::Receipt;
use ep_wire::{put_entry, write_malformed, write_refused, write_synced, write_taken};
use std::alloc::{AllocError, Global};

/// Answers are begun with room for so many bytes, as most have fewer, so that they needn't grow.
const ROOM: usize = 1_024;

/// The entry at this place, with these receipts.
fn put_with<K: Sink>(
    sink: &mut K,
    replica: &Replica,
    place: usize,
    receipts: &[Receipt],
) -> Result<(), AnswerFault>
    requires { place < length replica.now.entries }
    ensures { (e : Written) → slice_get replica.now.entries place ≡ Some e → OnOk result (Appends (K.held sink.old) (K.held sink.new) (entry_bytes replica.now.version e receipts.now)) }
{
    let journal = replica.journal();
    learn_entry(journal, place);
    if receipts.len() >= 0x1_0000 {
        return Err(AnswerFault);
    }
    let version = replica.version();
    put_entry(sink, version, &journal.entries()[place], receipts)?;
    Ok(())
}

/// The entry at this place, with its receipts.
fn put_reported_entry<K: Sink>(
    alloc: Global,
    sink: &mut K,
    replica: &Replica,
    place: usize,
) -> Result<(), AnswerFault>
    requires { place < length replica.now.entries }
    ensures { (e : Written) → slice_get replica.now.entries place ≡ Some e → OnOk result (Appends (K.held sink.old) (K.held sink.new) (reported_entry replica.now e)) }
{
    let receipts = replica.receipts_of(alloc, place)?;
    let reported = put_with(sink, replica, place, &receipts);
    drop(receipts);
    reported
}

/// So many entries from this place on.
fn put_reported_entries<K: Sink>(
    alloc: Global,
    sink: &mut K,
    replica: &Replica,
    from: usize,
    count: usize,
) -> Result<(), AnswerFault>
    requires there { from + count ≤ length replica.now.entries }
    requires fits { from + count < 2 ^ 64 }
    ensures { OnOk result (Appends (K.held sink.old) (K.held sink.new) (reported_from replica.now from count)) }
{
    for index in 0..count {
        put_reported_entry(alloc, sink, replica, from + index)?;
    }
    Ok(())
}

/// Whether there are so many entries from this place on.
fn are_there(replica: &Replica, from: usize, count: usize) -> bool
    ensures there { result ≡ true → from + count ≤ length replica.now.entries }
    ensures fits { result ≡ true → from + count < 2 ^ 64 }
{
    let entries = replica.journal().entries().len();
    from <= entries && count <= entries - from
}

/// The count of so many entries from this place on, and the entries.
fn taken_body(
    alloc: Global,
    replica: &Replica,
    from: usize,
    count: usize,
) -> Result<Vec<u8>, AnswerFault>
    requires there { from + count ≤ length replica.now.entries }
    requires fits { from + count < 2 ^ 64 }
    ensures { IfOk result (λ body. Appends (Some []) (Some body.items) (number_bytes 4 count ++ reported_from replica.now from count)) }
{
    let Ok(number) = u32::try_from(count) else {
        return Err(AnswerFault);
    };
    let mut body = Noted::new(Vec::with_capacity(alloc, ROOM)?);
    put_u32(&mut body, number)?;
    put_reported_entries(alloc, &mut body, replica, from, count)?;
    Ok(body.into_inner())
}

/// These bytes, as the answer that they are the body of.
fn put_taken_body<K: Sink>(sink: &mut K, body: &[u8]) -> Result<(), AnswerFault>
    ensures { OnOk result (Appends (K.held sink.old) (K.held sink.new) (taken_bytes body.now)) }
{
    if body.len() >= 0xffff_ffff {
        return Err(AnswerFault);
    }
    write_taken(sink, body)?;
    Ok(())
}

/// That so many entries were taken from this place on.
fn put_taken<K: Sink>(
    alloc: Global,
    sink: &mut K,
    replica: &Replica,
    from: usize,
    count: usize,
) -> Result<(), AnswerFault>
    ensures { OnOk result (AnswersOne replica.now (Taken from count) (K.held sink.old) (K.held sink.new)) }
{
    // What was taken is there.
    if !are_there(replica, from, count) {
        return Err(AnswerFault);
    }
    let body = taken_body(alloc, replica, from, count)?;
    put_taken_body(sink, &body)
}

/// How many entries are on the disk.
fn put_synced<K: Sink>(sink: &mut K, replica: &Replica) -> Result<(), AnswerFault>
    ensures { OnOk result (AnswersOne replica.now Synced (K.held sink.old) (K.held sink.new)) }
{
    let Ok(number) = u32::try_from(replica.journal().entries().len()) else {
        return Err(AnswerFault);
    };
    write_synced(sink, number)?;
    Ok(())
}

/// Appends the answer that waits, as the replica reports it; none of what there is to report.
fn put_asked<K: Sink>(
    alloc: Global,
    sink: &mut K,
    replica: &Replica,
    due: &PendingAnswer,
) -> Result<(), AnswerFault>
    ensures { OnOk result (AnswersOne replica.now due.now (K.held sink.old) (K.held sink.new)) }
{
    match due {
        PendingAnswer::Taken { from, count } => put_taken(alloc, sink, replica, *from, *count),
        PendingAnswer::Refused(refusal) => Ok(write_refused(sink, refusal)?),
        PendingAnswer::Value(key) => put_asked_value(sink, replica, key),
        PendingAnswer::Open(after) => put_asked_open(sink, replica, *after),
        PendingAnswer::Leads(instance) => put_asked_lead(sink, replica, *instance),
        PendingAnswer::Synced => put_synced(sink, replica),
        PendingAnswer::State => put_asked_state(sink, replica),
        // What there is to report the node reports.
        PendingAnswer::Ready { .. } => Err(AnswerFault),
        PendingAnswer::Handled(peer) => put_asked_handled(sink, replica, *peer),
        PendingAnswer::Interfering(key) => put_asked_interfering(alloc, sink, replica, key),
        PendingAnswer::Read { key, found } => put_asked_read(alloc, sink, replica, key, found),
        PendingAnswer::Malformed(malformed) => Ok(write_malformed(sink, *malformed)?),
    }
}

/// Appends the answer that waits, as the node's replica reports it, where all that it took is on the disk.
fn put_due<D: Device, K: Sink>(
    alloc: Global,
    sink: &mut K,
    node: &mut Node<D>,
    due: &PendingAnswer,
) -> Result<(), AnswerFault>
    ensures same { node.new ≡ node.old }
    ensures reported { OnOk result (AnswersOne node.old.replica due.now (K.held sink.old) (K.held sink.new)) }
{
    if let PendingAnswer::Ready { after, most } = due {
        return put_ready(alloc, sink, node, *after, *most);
    }
    let Some(replica) = node.replica() else {
        return Err(AnswerFault);
    };
    put_asked(alloc, sink, replica, due)
}

fn put_dues<D: Device, K: Sink>(
    alloc: Global,
    sink: &mut K,
    node: &mut Node<D>,
    dues: &[PendingAnswer],
) -> Result<(), AnswerFault>
    ensures same { node.new ≡ node.old }
    ensures reported { OnOk result (AnswersEach node.old.replica dues.now (K.held sink.old) (K.held sink.new)) }
{
    for due in dues {
        put_due(alloc, sink, node, due)?;
    }
    Ok(())
}

/// The answers that wait, one after the other, as the node's replica reports them, where all that it took is on the
/// disk.
pub(crate) fn answers_of<D: Device>(
    alloc: Global,
    node: &mut Node<D>,
    dues: &[PendingAnswer],
) -> Result<Vec<u8>, AnswerFault>
    ensures same { node.new ≡ node.old }
    ensures reported { IfOk result (λ out. AreAnswersTo node.old.replica dues.now out.items) }
{
    let mut sink = Noted::new(Vec::with_capacity(alloc, ROOM)?);
    put_dues(alloc, &mut sink, node, dues)?;
    Ok(sink.into_inner())
}

/// The answers that wait, one after the other, and behind them all that there is to report of the entries after the first ones, of which `after` were reported
/// before, and of at most `most` open instances; where all that the node took is on the disk.
pub fn all_answers<D: Device>(
    alloc: Global,
    node: &mut Node<D>,
    dues: &[PendingAnswer],
    after: u32,
    most: u8,
) -> Result<Vec<u8>, AllocError>
    ensures same { node.new ≡ node.old }
    ensures reported { IfOk result (λ out. AllAnswered node.old.replica dues.now after most out.items) }
{
    match answers_and_ready(alloc, node, dues, after, most) {
        Ok(out) => Ok(out),
        Err(_) => Err(AllocError),
    }
}

fn answers_and_ready<D: Device>(
    alloc: Global,
    node: &mut Node<D>,
    dues: &[PendingAnswer],
    after: u32,
    most: u8,
) -> Result<Vec<u8>, AnswerFault>
    ensures same { node.new ≡ node.old }
    ensures reported { IfOk result (λ out. AllAnswered node.old.replica dues.now after most out.items) }
{
    let mut sink = Noted::new(answers_of(alloc, node, dues)?);
    put_ready(alloc, &mut sink, node, after, most)?;
    Ok(sink.into_inner())
}
