//! The lines of an entry in a sequence diagram.

ghost use Rattle.std.specs.Prelude.{◌≡◌, ◌++◌, [], cond, OnOk, IfOk, codes};
ghost use Rattle.ep_frame.specs.Meaning.{message_at, sender_at};
ghost use Rattle.ep_report.specs.Parts.{instance_text, command_text, answer_text};
ghost use Rattle.ep_view.specs.Handled.{is_in};
ghost use Rattle.ep_view.specs.Labels.{mermaid_words};
ghost use Rattle.ep_view.specs.Words.{event_text, sparing_text};
ghost use Rattle.ep_view.specs.Sequences.{pre_accept_ok_text, brief_text, note_start, arrow_start, as_text, happened, answered, all_answered, lost_line, lost_lines, entry_lines};

use crate::events::{command_words, push_event, push_sparing};
use crate::handled::Handled;
use crate::labels::push_mermaid_words;
use ep_base::{Answer, Command, InstanceId, Message, ReplicaId};
use ep_frame::Frame;
use ep_journal::{Entry, Event};
use ep_report::{Part, push_answer, push_parts};
use std::alloc::{AllocError, Global};

/// Appends the beginning of a note at this replica's line.
#[tactic(auto, unfolding(crate::specs::Sequences::note_start))]
pub(crate) fn push_note_start(text: &mut Vec<u8>, replica: u8) -> Result<(), AllocError>
    ensures { OnOk result (text.new.items ≡ text.old.items ++ note_start replica) }
{
    push_parts(
        text,
        &[
            Part::Text(b"  Note over r"),
            Part::Number(replica as u64),
            Part::Text(b": "),
        ],
    )
}

// Appends the beginning of an arrow from one replica's line to another one's.
#[tactic(auto, unfolding(crate::specs::Sequences::arrow_start))]
fn push_arrow_start(text: &mut Vec<u8>, from: u8, arrow: &[u8], to: u8) -> Result<(), AllocError>
    ensures { OnOk result (text.new.items ≡ text.old.items ++ arrow_start from arrow.now to) }
{
    push_parts(
        text,
        &[
            Part::Text(b"  r"),
            Part::Number(from as u64),
            Part::Text(arrow),
            Part::Text(b"r"),
            Part::Number(to as u64),
            Part::Text(b": "),
        ],
    )
}

fn push_kind(text: &mut Vec<u8>, kind: &[u8], instance: InstanceId) -> Result<(), AllocError>
    ensures { OnOk result (text.new.items ≡ text.old.items ++ (kind.now ++ instance_text instance)) }
{
    push_parts(text, &[Part::Text(kind), Part::Instance(instance)])
}

#[tactic(auto, unfolding(crate::specs::Sequences::pre_accept_ok_text))]
fn push_pre_accept_ok(text: &mut Vec<u8>, instance: InstanceId) -> Result<(), AllocError>
    ensures { OnOk result (text.new.items ≡ text.old.items ++ pre_accept_ok_text instance) }
{
    push_parts(
        text,
        &[Part::Text(b"PreAcceptOK "), Part::Instance(instance)],
    )
}

fn push_reported(text: &mut Vec<u8>, reported: &Message) -> Result<(), AllocError>
    ensures { OnOk result (text.new.items ≡ text.old.items ++ brief_text reported.now) }
{
    match reported {
        Message::PreAccept { instance, .. } => push_kind(text, b"PreAccept ", *instance),
        Message::PreAcceptOk { instance, .. } => push_pre_accept_ok(text, *instance),
        Message::Accept { instance, .. } => push_kind(text, b"Accept ", *instance),
        Message::AcceptOk { instance, .. } => push_kind(text, b"AcceptOK ", *instance),
        Message::Commit { instance, .. } => push_kind(text, b"Commit ", *instance),
        Message::Prepare { instance, .. } => push_kind(text, b"Prepare ", *instance),
        Message::PrepareOk { instance, .. } => push_kind(text, b"PrepareOK ", *instance),
        Message::Nack { instance, .. } => push_kind(text, b"Nack ", *instance),
    }
}

// Appends the kind of a frame's message, and its instance.
fn push_brief(text: &mut Vec<u8>, frame: &Frame) -> Result<(), AllocError>
    ensures { OnOk result (text.new.items ≡ text.old.items ++ brief_text (message_at frame.now)) }
{
    let reported = frame.view().to_message(*text.allocator())?;
    let pushed = push_reported(text, &reported);
    drop(reported);
    pushed
}

fn answer_words(alloc: Global, answer: &Answer) -> Result<Vec<u8>, AllocError>
    ensures { IfOk result (λ words. words.items ≡ answer_text answer.now) }
{
    let mut words = Vec::new(alloc);
    push_answer(&mut words, answer)?;
    Ok(words)
}

// Appends the instance that a proposal takes.
fn push_as(text: &mut Vec<u8>, frames: &[Frame]) -> Result<(), AllocError>
    ensures { OnOk result (text.new.items ≡ text.old.items ++ as_text frames.now) }
{
    let [first, ..] = frames else {
        return Ok(());
    };
    push_parts(
        text,
        &[Part::Text(b" as "), Part::Instance(first.instance())],
    )
}

fn push_proposed(
    text: &mut Vec<u8>,
    command: &Command,
    spared: Option<ReplicaId>,
    frames: &[Frame],
) -> Result<(), AllocError>
    ensures { OnOk result (text.new.items ≡ text.old.items ++ (codes "propose " ++ mermaid_words (command_text command.now) ++ sparing_text spared ++ as_text frames.now)) }
{
    let words = command_words(*text.allocator(), command)?;
    text.extend_from_slice(b"propose ")?;
    push_mermaid_words(text, &words)?;
    push_sparing(text, spared)?;
    push_as(text, frames)
}

fn push_proposal(
    text: &mut Vec<u8>,
    replica: ReplicaId,
    command: &Command,
    spared: Option<ReplicaId>,
    frames: &[Frame],
) -> Result<(), AllocError>
    ensures { OnOk result (text.new.items ≡ text.old.items ++ (note_start replica ++ codes "propose " ++ mermaid_words (command_text command.now) ++ sparing_text spared ++ as_text frames.now)) }
{
    push_note_start(text, replica.index())?;
    push_proposed(text, command, spared, frames)
}

fn push_handled(text: &mut Vec<u8>, replica: ReplicaId, frame: &Frame) -> Result<(), AllocError>
    ensures { OnOk result (text.new.items ≡ text.old.items ++ (arrow_start (sender_at frame.now) (codes "->>") replica ++ brief_text (message_at frame.now))) }
{
    push_arrow_start(text, frame.from().index(), b"->>", replica.index())?;
    push_brief(text, frame)
}

fn push_noted(text: &mut Vec<u8>, replica: ReplicaId, event: &Event) -> Result<(), AllocError>
    ensures { OnOk result (text.new.items ≡ text.old.items ++ note_start replica ++ event_text event.now) }
{
    push_note_start(text, replica.index())?;
    push_event(text, event)
}

// Appends an event of this replica, and of a proposal the instance that it takes.
fn push_happened(
    text: &mut Vec<u8>,
    replica: ReplicaId,
    event: &Event,
    frames: &[Frame],
) -> Result<(), AllocError>
    ensures { OnOk result (text.new.items ≡ text.old.items ++ happened replica event.now frames.now) }
{
    match event {
        Event::Propose {
            command,
            spared,
            ..
        } => push_proposal(text, replica, command, *spared, frames),
        Event::Handle(frame) => push_handled(text, replica, frame),
        Event::GiveUp(_) | Event::Recover(_) | Event::Execute(_) => push_noted(
            text, replica, event,
        ),
    }
}

// Appends an instance that was executed, with its answer.
fn push_answered(text: &mut Vec<u8>, done: &(InstanceId, Answer)) -> Result<(), AllocError>
    ensures { OnOk result (text.new.items ≡ text.old.items ++ answered done.now) }
{
    let (instance, answer) = done;
    let words = answer_words(*text.allocator(), answer)?;
    push_parts(
        text,
        &[
            Part::Text(b"<br/>"),
            Part::Instance(*instance),
            Part::Text(b" answers "),
        ],
    )?;
    push_mermaid_words(text, &words)
}

fn push_all_answered(text: &mut Vec<u8>, done: &[(InstanceId, Answer)]) -> Result<(), AllocError>
    ensures { OnOk result (text.new.items ≡ text.old.items ++ all_answered done.now) }
{
    for one in done {
        push_answered(text, one)?;
    }
    Ok(())
}

// Appends the arrow of a frame that no entry handles.
fn push_lost(text: &mut Vec<u8>, replica: ReplicaId, frame: &Frame) -> Result<(), AllocError>
    ensures { OnOk result (text.new.items ≡ text.old.items ++ lost_line replica frame.now) }
{
    push_arrow_start(text, replica.index(), b"--x", frame.origin().to.index())?;
    push_brief(text, frame)?;
    text.extend_from_slice(b"\n")
}

fn push_unless(
    text: &mut Vec<u8>,
    handled: &Handled,
    replica: ReplicaId,
    frame: &Frame,
) -> Result<(), AllocError>
    ensures { OnOk result (text.new.items ≡ text.old.items ++ cond (is_in handled.now frame.now) [] (lost_line replica frame.now)) }
{
    if handled.has(frame) {
        return Ok(());
    }
    push_lost(text, replica, frame)
}

// Appends the arrows of those frames that no entry handles.
fn push_all_lost(
    text: &mut Vec<u8>,
    handled: &Handled,
    replica: ReplicaId,
    frames: &[Frame],
) -> Result<(), AllocError>
    ensures { OnOk result (text.new.items ≡ text.old.items ++ lost_lines (is_in handled.now) replica frames.now) }
{
    for frame in frames {
        push_unless(text, handled, replica, frame)?;
    }
    Ok(())
}

/// Appends the lines of an entry of this replica: a note or an arrow of what happened, with the answers of what was executed, and an arrow with
/// a cross for each frame that it sends and no entry handles.
pub(crate) fn push_entry_lines(
    text: &mut Vec<u8>,
    handled: &Handled,
    replica: ReplicaId,
    entry: &Entry,
) -> Result<(), AllocError>
    ensures { OnOk result (text.new.items ≡ text.old.items ++ entry_lines (is_in handled.now) replica entry.now) }
{
    let frames = entry.frames.as_slice();
    push_happened(text, replica, &entry.event, frames)?;
    push_all_answered(text, entry.done.as_slice())?;
    text.extend_from_slice(b"\n")?;
    push_all_lost(text, handled, replica, frames)
}
