//! Entries in words.

ghost use Rattle.std.specs.Prelude.{◌≡◌, ◌++◌, [], cond, IfOk, OnOk, codes};
ghost use Rattle.ep_view.specs.Handled.{is_in};
ghost use Rattle.ep_view.specs.Lines.{words_at, answered_text, more_done, done_text, took_text, taken_text, between, receiver_text, more_sent, sent_text, happened_text, entry_text};

use crate::events::push_event;
use crate::handled::Handled;
use crate::messages::push_message;
use ep_base::{Answer, InstanceId, ReplicaId};
use ep_frame::Frame;
use ep_journal::{Entry, Event};
use ep_report::{Part, push_parts};
use std::alloc::{AllocError, Global};

// Appends an instance that was executed, with its answer.
fn push_answered(text: &mut Vec<u8>, done: &(InstanceId, Answer)) -> Result<(), AllocError>
    ensures { OnOk result (text.new.items ≡ text.old.items ++ answered_text done.now) }
{
    let (instance, answer) = done;
    push_parts(
        text,
        &[
            Part::Instance(*instance),
            Part::Text(b" -> "),
            Part::Answer(answer),
        ],
    )
}

fn push_more_done(text: &mut Vec<u8>, done: &[(InstanceId, Answer)]) -> Result<(), AllocError>
    ensures { OnOk result (text.new.items ≡ text.old.items ++ more_done done.now) }
{
    for one in done {
        text.extend_from_slice(b", ")?;
        push_answered(text, one)?;
    }
    Ok(())
}

/// Appends what was executed, if anything was.
pub fn push_done(text: &mut Vec<u8>, done: &[(InstanceId, Answer)]) -> Result<(), AllocError>
    ensures { OnOk result (text.new.items ≡ text.old.items ++ done_text done.now) }
{
    let [first, rest @ ..] = done else {
        return Ok(());
    };
    text.extend_from_slice(b"; executed ")?;
    push_answered(text, first)?;
    push_more_done(text, rest)
}

// Appends the instance that a proposal takes.
fn push_took(text: &mut Vec<u8>, frames: &[Frame]) -> Result<(), AllocError>
    ensures { OnOk result (text.new.items ≡ text.old.items ++ took_text frames.now) }
{
    let [first, ..] = frames else {
        return Ok(());
    };
    push_parts(
        text,
        &[Part::Text(b"; took "), Part::Instance(first.instance())],
    )
}

/// Appends an event, and for a proposal the instance that it takes.
pub fn push_taken(text: &mut Vec<u8>, event: &Event, frames: &[Frame]) -> Result<(), AllocError>
    ensures { OnOk result (text.new.items ≡ text.old.items ++ taken_text event.now frames.now) }
{
    push_event(text, event)?;
    match event {
        Event::Propose { .. } => push_took(text, frames),
        Event::Handle(_) | Event::GiveUp(_) | Event::Recover(_) | Event::Execute(_) => Ok(()),
    }
}

/// The words of the frame's message, alone.
pub fn words_of(alloc: Global, frame: &Frame) -> Result<Vec<u8>, AllocError>
    ensures { IfOk result (λ words. words.items ≡ words_at frame.now) }
{
    let mut words = Vec::new(alloc);
    push_message(&mut words, frame)?;
    Ok(words)
}

/// Appends what stands between the receivers of two frames with these words.
pub fn push_between(text: &mut Vec<u8>, words: &[u8], next: &[u8]) -> Result<(), AllocError>
    ensures { OnOk result (text.new.items ≡ text.old.items ++ between words.now next.now) }
{
    if words == next {
        return text.extend_from_slice(b", ");
    }
    push_parts(
        text,
        &[
            Part::Text(b": "),
            Part::Text(words),
            Part::Text(b"; sends "),
        ],
    )
}

// Appends the receiver of a frame, and whether nobody handles it.
fn push_receiver(text: &mut Vec<u8>, handled: &Handled, frame: &Frame) -> Result<(), AllocError>
    ensures { OnOk result (text.new.items ≡ text.old.items ++ receiver_text (is_in handled.now) frame.now) }
{
    push_parts(
        text,
        &[
            Part::Text(b"to "),
            Part::Number(frame.origin().to.index() as u64),
        ],
    )?;
    push_unless(text, handled.has(frame))
}

// Appends that nobody handles a frame, unless somebody does.
fn push_unless(text: &mut Vec<u8>, is_handled: bool) -> Result<(), AllocError>
    ensures { OnOk result (text.new.items ≡ text.old.items ++ cond is_handled [] (codes " NEVER HANDLED")) }
{
    if is_handled {
        return Ok(());
    }
    text.extend_from_slice(b" NEVER HANDLED")
}

// Appends what is sent after a frame of these words.
fn push_more_sent(
    text: &mut Vec<u8>,
    handled: &Handled,
    first: Vec<u8>,
    frames: &[Frame],
) -> Result<(), AllocError>
    ensures { OnOk result (text.new.items ≡ text.old.items ++ more_sent (is_in handled.now) first.items frames.now) }
{
    let mut words = first;
    for frame in frames {
        let next = words_of(*text.allocator(), frame)?;
        push_between(text, &words, &next)?;
        push_receiver(text, handled, frame)?;
        words = next;
    }
    text.extend_from_slice(b": ")?;
    text.extend_from_slice(&words)
}

// Appends the receiver of the first frame that is sent, and then all the rest.
fn push_from(
    text: &mut Vec<u8>,
    handled: &Handled,
    first: &Frame,
    rest: &[Frame],
) -> Result<(), AllocError>
    ensures { OnOk result (text.new.items ≡ text.old.items ++ receiver_text (is_in handled.now) first.now ++ more_sent (is_in handled.now) (words_at first.now) rest.now) }
{
    let words = words_of(*text.allocator(), first)?;
    push_receiver(text, handled, first)?;
    push_more_sent(text, handled, words, rest)
}

// Appends what is sent, if anything is.
fn push_sent(text: &mut Vec<u8>, handled: &Handled, frames: &[Frame]) -> Result<(), AllocError>
    ensures { OnOk result (text.new.items ≡ text.old.items ++ sent_text (is_in handled.now) frames.now) }
{
    let [first, rest @ ..] = frames else {
        return Ok(());
    };
    text.extend_from_slice(b"; sends ")?;
    push_from(text, handled, first, rest)
}

// Appends what happened in an entry: its event, what it sends, and what it executes.
pub(crate) fn push_happened(
    text: &mut Vec<u8>,
    handled: &Handled,
    entry: &Entry,
) -> Result<(), AllocError>
    ensures { OnOk result (text.new.items ≡ text.old.items ++ happened_text (is_in handled.now) entry.now) }
{
    let frames = entry.frames.as_slice();
    push_taken(text, &entry.event, frames)?;
    push_sent(text, handled, frames)?;
    push_done(text, entry.done.as_slice())
}

/// Appends an entry of this replica: its stamp and number, and what happened in it.
pub(crate) fn push_entry(
    text: &mut Vec<u8>,
    handled: &Handled,
    replica: ReplicaId,
    entry: &Entry,
) -> Result<(), AllocError>
    ensures { OnOk result (text.new.items ≡ text.old.items ++ entry_text (is_in handled.now) replica entry.now) }
{
    push_parts(
        text,
        &[
            Part::Text(b"stamp "),
            Part::Number(entry.stamp.ticks()),
            Part::Text(b"  replica "),
            Part::Number(replica.index() as u64),
            Part::Text(b" entry "),
            Part::Number(entry.number as u64),
            Part::Text(b"  "),
        ],
    )?;
    push_happened(text, handled, entry)
}
