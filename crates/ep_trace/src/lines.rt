//! The lines of events.

ghost use Rattle.std.specs.Prelude.{◌≡◌, ◌+◌, ◌++◌, OnOk, codes, decimal};
ghost use Rattle.ep_trace.specs.Lines.{number_text, handled_text, happening_text, receiver_text, more_sent, sent_text, place_text, happened_text, made_line, spared_text, proposal_text, asked_text, refused_line};
ghost use Rattle.ep_view.specs.Lines.{words_at};
ghost use Rattle.ep_report.specs.Parts.{instance_text};

use crate::numbers::{Numbers, next};
use ep_base::{Command, InstanceId, ReplicaId};
use ep_frame::Frame;
use ep_journal::{Entry, Event, Refusal};
use ep_report::{Part, push_parts};
use ep_view::{push_between, push_done, push_message, push_taken, words_of};
use ep_world::WorldEvent;
use std::alloc::AllocError;

// Appends the number of a message, where it is known.
fn push_given(text: &mut Vec<u8>, number: Option<u64>) -> Result<(), AllocError>
    ensures { OnOk result (text.new.items ≡ text.old.items ++ number_text number) }
{
    let Some(number) = number else {
        return Ok(());
    };
    push_parts(
        text,
        &[Part::Text(b"#"), Part::Number(number), Part::Text(b" ")],
    )
}

// Appends a message that is handled.
fn push_handled(text: &mut Vec<u8>, number: Option<u64>, frame: &Frame) -> Result<(), AllocError>
    ensures { OnOk result (text.new.items ≡ text.old.items ++ handled_text number frame.now) }
{
    text.extend_from_slice(b"handle ")?;
    push_given(text, number)?;
    push_parts(
        text,
        &[
            Part::Text(b"from "),
            Part::Number(frame.from().index() as u64),
            Part::Text(b": "),
        ],
    )?;
    push_message(text, frame)
}

// Appends an event that sends these frames.
fn push_happening(
    text: &mut Vec<u8>,
    given: Option<u64>,
    event: &Event,
    frames: &[Frame],
) -> Result<(), AllocError>
    ensures { OnOk result (text.new.items ≡ text.old.items ++ happening_text given event.now frames.now) }
{
    match event {
        Event::Handle(frame) => push_handled(text, given, frame),
        Event::Propose { .. } | Event::GiveUp(_) | Event::Recover(_) | Event::Execute(_) => {
            push_taken(text, event, frames)
        }
    }
}

// Appends the number of a message that is sent, and its receiver.
fn push_receiver(text: &mut Vec<u8>, number: u64, frame: &Frame) -> Result<(), AllocError>
    ensures { OnOk result (text.new.items ≡ text.old.items ++ receiver_text number frame.now) }
{
    push_parts(
        text,
        &[
            Part::Text(b"#"),
            Part::Number(number),
            Part::Text(b" to "),
            Part::Number(frame.origin().to.index() as u64),
        ],
    )
}

// Appends what is sent, from this number on, after a frame of these words.
fn push_more_sent(
    text: &mut Vec<u8>,
    number: u64,
    words: Vec<u8>,
    frames: &[Frame],
) -> Result<(), AllocError>
    ensures { OnOk result (text.new.items ≡ text.old.items ++ more_sent number words.items frames.now) }
{
    let mut number = number;
    let mut words = words;
    for frame in frames {
        let these = words_of(*text.allocator(), frame)?;
        push_between(text, &words, &these)?;
        push_receiver(text, number, frame)?;
        number = next(number)?;
        words = these;
    }
    text.extend_from_slice(b": ")?;
    text.extend_from_slice(&words)
}

// Appends the first frame that is sent, of this number, and then all the rest.
fn push_from(
    text: &mut Vec<u8>,
    number: u64,
    first: &Frame,
    rest: &[Frame],
) -> Result<(), AllocError>
    ensures { OnOk result (text.new.items ≡ text.old.items ++ receiver_text number first.now ++ more_sent (number + 1) (words_at first.now) rest.now) }
{
    let words = words_of(*text.allocator(), first)?;
    push_receiver(text, number, first)?;
    push_more_sent(text, next(number)?, words, rest)
}

// Appends what is sent, from this number on, if anything is.
fn push_sent(text: &mut Vec<u8>, number: u64, frames: &[Frame]) -> Result<(), AllocError>
    ensures { OnOk result (text.new.items ≡ text.old.items ++ sent_text number frames.now) }
{
    let [first, rest @ ..] = frames else {
        return Ok(());
    };
    text.extend_from_slice(b"; sends ")?;
    push_from(text, number, first, rest)
}

// Appends where an event happened: its line, and its entry at this replica.
fn push_place(
    text: &mut Vec<u8>,
    line: u32,
    replica: ReplicaId,
    entry: &Entry,
) -> Result<(), AllocError>
    ensures { OnOk result (text.new.items ≡ text.old.items ++ place_text line replica entry.now) }
{
    push_parts(
        text,
        &[
            Part::Text(b"line "),
            Part::Number(line as u64),
            Part::Text(b"  stamp "),
            Part::Number(entry.stamp.ticks()),
            Part::Text(b"  replica "),
            Part::Number(replica.index() as u64),
            Part::Text(b" entry "),
            Part::Number(entry.number as u64),
            Part::Text(b"  "),
        ],
    )
}

// Appends what happened in an entry.
fn push_happened(text: &mut Vec<u8>, numbers: Numbers, entry: &Entry) -> Result<(), AllocError>
    ensures { OnOk result (text.new.items ≡ text.old.items ++ happened_text numbers entry.now) }
{
    let frames = entry.frames.as_slice();
    push_happening(text, numbers.given, &entry.event, frames)?;
    push_sent(text, numbers.first, frames)?;
    push_done(text, entry.done.as_slice())
}

/// Appends the line of the entry that an event made at this replica.
pub(crate) fn push_made(
    text: &mut Vec<u8>,
    numbers: Numbers,
    replica: ReplicaId,
    entry: &Entry,
) -> Result<(), AllocError>
    ensures { OnOk result (text.new.items ≡ text.old.items ++ made_line numbers replica entry.now) }
{
    push_place(text, numbers.line, replica, entry)?;
    push_happened(text, numbers, entry)?;
    text.push(b'\n')?;
    Ok(())
}

// Appends a proposal as a script has it.
fn push_proposal(
    text: &mut Vec<u8>,
    replica: ReplicaId,
    client: u32,
    command: &Command,
) -> Result<(), AllocError>
    ensures { OnOk result (text.new.items ≡ text.old.items ++ proposal_text replica client command.now) }
{
    push_parts(
        text,
        &[
            Part::Text(b"propose "),
            Part::Number(replica.index() as u64),
            Part::Text(b" "),
            Part::Number(client as u64),
            Part::Text(b" "),
            Part::Command(command),
        ],
    )
}

// Appends what stands before a proposal that names the replica to be spared.
fn push_spared(text: &mut Vec<u8>, spared: Option<ReplicaId>) -> Result<(), AllocError>
    ensures { OnOk result (text.new.items ≡ text.old.items ++ spared_text spared) }
{
    let Some(replica) = spared else {
        return Ok(());
    };
    push_parts(
        text,
        &[
            Part::Text(b"sparing "),
            Part::Number(replica.index() as u64),
            Part::Text(b" "),
        ],
    )
}

// Appends a line's first word, and a replica and an instance.
fn push_named(
    text: &mut Vec<u8>,
    word: &[u8],
    replica: ReplicaId,
    instance: InstanceId,
) -> Result<(), AllocError>
    ensures { OnOk result (text.new.items ≡ text.old.items ++ (word.now ++ decimal replica ++ codes " " ++ instance_text instance)) }
{
    push_parts(
        text,
        &[
            Part::Text(word),
            Part::Number(replica.index() as u64),
            Part::Text(b" "),
            Part::Instance(instance),
        ],
    )
}

// Appends an event as a script has it.
fn push_asked(text: &mut Vec<u8>, event: &WorldEvent) -> Result<(), AllocError>
    ensures { OnOk result (text.new.items ≡ text.old.items ++ asked_text event.now) }
{
    match event {
        WorldEvent::Propose {
            replica,
            client,
            request: _,
            command,
            seen: _,
            spared,
        } => {
            push_spared(text, *spared)?;
            push_proposal(text, *replica, *client, command)
        }
        WorldEvent::GiveUp { replica, instance } => {
            push_named(text, b"giveup ", *replica, *instance)
        }
        WorldEvent::Recover { replica, instance } => {
            push_named(text, b"recover ", *replica, *instance)
        }
        WorldEvent::Execute { replica, instance } => {
            push_named(text, b"execute ", *replica, *instance)
        }
        WorldEvent::Deliver(message) => push_parts(
            text,
            &[Part::Text(b"deliver "), Part::Number(*message)],
        ),
    }
}

/// Appends the line of an event that was refused.
pub(crate) fn push_refused(
    text: &mut Vec<u8>,
    line: u32,
    event: &WorldEvent,
    cause: Refusal,
) -> Result<(), AllocError>
    ensures { OnOk result (text.new.items ≡ text.old.items ++ refused_line line event.now cause) }
{
    let words = cause.to_string(*text.allocator())?;
    push_parts(
        text,
        &[
            Part::Text(b"line "),
            Part::Number(line as u64),
            Part::Text(b"  refused "),
            Part::Text(words.as_bytes()),
            Part::Text(b": "),
        ],
    )?;
    push_asked(text, event)?;
    text.push(b'\n')?;
    Ok(())
}
