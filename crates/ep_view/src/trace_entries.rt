//! The trace events of an entry.

ghost use Rattle.std.specs.Prelude.{◌≡◌, ◌++◌, [], cond, codes, take, IfOk, OnOk};
ghost use Rattle.std.specs.Str.{bytes_eq};
ghost use Rattle.ep_view.specs.Handled.{is_in};
ghost use Rattle.ep_view.specs.Words.{event_text};
ghost use Rattle.ep_view.specs.TraceEvents.{happened_text, instant_text, slice_head, slice_words, slice_text, leaves_text, enters_text, arrow_of, is_commit, commit_of, commit_handled, commit_sent, lost_words, lost_text, instants_text, entry_events};

use crate::events::push_event;
use crate::handled::Handled;
use crate::lines::{push_done, push_taken, words_of};
use crate::trace_parts::{push_arrow_id, push_begun, push_instant, push_named};
use ep_base::ReplicaId;
use ep_frame::Frame;
use ep_journal::{Entry, Event};
use ep_json::push_string;
use ep_report::{Part, push_instance, push_parts};
use std::alloc::{AllocError, Global};

fn event_words(alloc: Global, event: &Event) -> Result<Vec<u8>, AllocError>
    ensures { IfOk result (λ words. words.items ≡ event_text event.now) }
{
    let mut words = Vec::new(alloc);
    push_event(&mut words, event)?;
    Ok(words)
}

fn happened_words(alloc: Global, entry: &Entry) -> Result<Vec<u8>, AllocError>
    ensures { IfOk result (λ words. words.items ≡ happened_text entry.now) }
{
    let mut words = Vec::new(alloc);
    push_taken(&mut words, &entry.event, entry.frames.as_slice())?;
    push_done(&mut words, entry.done.as_slice())?;
    Ok(words)
}

#[tactic(auto, unfolding(crate::specs::TraceEvents::slice_head))]
fn push_slice_head(text: &mut Vec<u8>, replica: ReplicaId, entry: &Entry) -> Result<(), AllocError>
    ensures { OnOk result (text.new.items ≡ text.old.items ++ slice_head replica entry.now) }
{
    let words = event_words(*text.allocator(), &entry.event)?;
    push_begun(
        text,
        b"\"ph\":\"X\",\"cat\":\"entry\",\"dur\":1",
        replica,
        entry.stamp.ticks(),
    )?;
    push_named(text, &words)
}

#[tactic(auto, unfolding(crate::specs::TraceEvents::slice_words))]
fn push_slice_words(text: &mut Vec<u8>, entry: &Entry) -> Result<(), AllocError>
    ensures { OnOk result (text.new.items ≡ text.old.items ++ slice_words entry.now) }
{
    let words = happened_words(*text.allocator(), entry)?;
    push_parts(
        text,
        &[
            Part::Text(b",\"args\":{\"entry\":"),
            Part::Number(entry.number as u64),
            Part::Text(b",\"words\":"),
        ],
    )?;
    push_string(text, &words)?;
    text.extend_from_slice(b"}}")
}

fn push_slice(text: &mut Vec<u8>, replica: ReplicaId, entry: &Entry) -> Result<(), AllocError>
    ensures { OnOk result (text.new.items ≡ text.old.items ++ slice_text replica entry.now) }
{
    push_slice_head(text, replica, entry)?;
    push_slice_words(text, entry)
}

// Appends where the frame that the entry handles was sent.
#[tactic(auto, unfolding(crate::specs::TraceEvents::leaves_text))]
fn push_leaves(
    text: &mut Vec<u8>,
    replica: ReplicaId,
    entry: &Entry,
    frame: &Frame,
) -> Result<(), AllocError>
    ensures { OnOk result (text.new.items ≡ text.old.items ++ leaves_text replica entry.now frame.now) }
{
    let words = words_of(*text.allocator(), frame)?;
    push_begun(
        text,
        b"\"ph\":\"s\",\"cat\":\"frame\"",
        frame.from(),
        frame.origin().stamp.ticks(),
    )?;
    push_named(text, &words)?;
    push_arrow_id(text, replica, entry, frame)
}

// Appends where it is handled.
#[tactic(auto, unfolding(crate::specs::TraceEvents::enters_text))]
fn push_enters(
    text: &mut Vec<u8>,
    replica: ReplicaId,
    entry: &Entry,
    frame: &Frame,
) -> Result<(), AllocError>
    ensures { OnOk result (text.new.items ≡ text.old.items ++ enters_text replica entry.now frame.now) }
{
    let words = words_of(*text.allocator(), frame)?;
    push_begun(
        text,
        b"\"ph\":\"f\",\"bp\":\"e\",\"cat\":\"frame\"",
        replica,
        entry.stamp.ticks(),
    )?;
    push_named(text, &words)?;
    push_arrow_id(text, replica, entry, frame)
}

// Appends the arrow of the frame that the entry handles, if it handles one.
fn push_arrow(text: &mut Vec<u8>, replica: ReplicaId, entry: &Entry) -> Result<(), AllocError>
    ensures { OnOk result (text.new.items ≡ text.old.items ++ arrow_of replica entry.now entry.now.event) }
{
    match &entry.event {
        Event::Handle(frame) => {
            push_leaves(text, replica, entry, frame)?;
            push_enters(text, replica, entry, frame)
        }
        Event::Propose { .. } | Event::GiveUp(_) | Event::Recover(_) | Event::Execute(_) => Ok(()),
    }
}

#[tactic(auto, using(crate::proofs::Fronts::front))]
fn begins_commit(words: &[u8]) -> bool
    ensures { result ≡ bytes_eq (take 7 words.now) (codes "Commit ") }
{
    let front = &words[..words.len().min(7)];
    front == b"Commit ".as_slice()
}

fn is_commit(alloc: Global, frame: &Frame) -> Result<bool, AllocError>
    ensures { IfOk result (λ b. b ≡ is_commit frame.now) }
{
    let words = words_of(alloc, frame)?;
    Ok(begins_commit(&words))
}

// Appends that the frame's instance is committed, if its message is a Commit.
fn push_commit(
    text: &mut Vec<u8>,
    replica: ReplicaId,
    entry: &Entry,
    frame: &Frame,
) -> Result<(), AllocError>
    ensures { OnOk result (text.new.items ≡ text.old.items ++ commit_of replica entry.now frame.now) }
{
    if !is_commit(*text.allocator(), frame)? {
        return Ok(());
    }
    let mut words = Vec::from_slice(*text.allocator(), b"committed ")?;
    push_instance(&mut words, frame.instance())?;
    push_instant(text, replica, entry, &words)
}

fn push_commit_handled(
    text: &mut Vec<u8>,
    replica: ReplicaId,
    entry: &Entry,
) -> Result<(), AllocError>
    ensures { OnOk result (text.new.items ≡ text.old.items ++ commit_handled replica entry.now entry.now.event) }
{
    match &entry.event {
        Event::Handle(frame) => push_commit(text, replica, entry, frame),
        Event::Propose { .. } | Event::GiveUp(_) | Event::Recover(_) | Event::Execute(_) => Ok(()),
    }
}

fn push_commit_sent(
    text: &mut Vec<u8>,
    replica: ReplicaId,
    entry: &Entry,
    frames: &[Frame],
) -> Result<(), AllocError>
    ensures { OnOk result (text.new.items ≡ text.old.items ++ commit_sent replica entry.now frames.now) }
{
    let [first, ..] = frames else {
        return Ok(());
    };
    push_commit(text, replica, entry, first)
}

#[tactic(auto, unfolding(crate::specs::TraceEvents::lost_words))]
fn words_of_lost(alloc: Global, frame: &Frame) -> Result<Vec<u8>, AllocError>
    ensures { IfOk result (λ words. words.items ≡ lost_words frame.now) }
{
    let message = words_of(alloc, frame)?;
    let mut words = Vec::new(alloc);
    push_parts(
        &mut words,
        &[
            Part::Text(b"never handled: to "),
            Part::Number(frame.origin().to.index() as u64),
            Part::Text(b": "),
            Part::Text(&message),
        ],
    )?;
    Ok(words)
}

// Appends that no entry handles the frame, unless some entry does.
fn push_unless(
    text: &mut Vec<u8>,
    handled: &Handled,
    replica: ReplicaId,
    entry: &Entry,
    frame: &Frame,
) -> Result<(), AllocError>
    ensures { OnOk result (text.new.items ≡ text.old.items ++ cond (is_in handled.now frame.now) [] (instant_text replica entry.now (lost_words frame.now))) }
{
    if handled.has(frame) {
        return Ok(());
    }
    let words = words_of_lost(*text.allocator(), frame)?;
    push_instant(text, replica, entry, &words)
}

fn push_lost(
    text: &mut Vec<u8>,
    handled: &Handled,
    replica: ReplicaId,
    entry: &Entry,
    frames: &[Frame],
) -> Result<(), AllocError>
    ensures { OnOk result (text.new.items ≡ text.old.items ++ lost_text (is_in handled.now) replica entry.now frames.now) }
{
    for frame in frames {
        push_unless(text, handled, replica, entry, frame)?;
    }
    Ok(())
}

fn push_instants(
    text: &mut Vec<u8>,
    handled: &Handled,
    replica: ReplicaId,
    entry: &Entry,
) -> Result<(), AllocError>
    ensures { OnOk result (text.new.items ≡ text.old.items ++ instants_text (is_in handled.now) replica entry.now) }
{
    let frames = entry.frames.as_slice();
    push_commit_handled(text, replica, entry)?;
    push_commit_sent(text, replica, entry, frames)?;
    push_lost(text, handled, replica, entry, frames)
}

/// Appends the events of an entry of this replica.
pub(crate) fn push_entry_events(
    text: &mut Vec<u8>,
    handled: &Handled,
    replica: ReplicaId,
    entry: &Entry,
) -> Result<(), AllocError>
    ensures { OnOk result (text.new.items ≡ text.old.items ++ entry_events (is_in handled.now) replica entry.now) }
{
    push_slice(text, replica, entry)?;
    push_arrow(text, replica, entry)?;
    push_instants(text, handled, replica, entry)
}
