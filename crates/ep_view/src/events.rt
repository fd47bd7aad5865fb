//! Events in words.

ghost use Rattle.std.specs.Prelude.{◌≡◌, ◌++◌, IfOk, OnOk};
ghost use Rattle.ep_journal.specs.declared.event.Event.TheVariants as event;
ghost use Rattle.ep_report.specs.Parts.{command_text, instance_text};
ghost use Rattle.ep_view.specs.Words.{event_text, request_text, sparing_text};

use crate::messages::{push_message, push_origin};
use ep_base::{Command, InstanceId, ReplicaId};
use ep_frame::Frame;
use ep_journal::Event;
use ep_report::{Part, push_command, push_parts};
use std::alloc::{AllocError, Global};

/// Appends the replica that a proposal names as the spared one, if it does.
pub(crate) fn push_sparing(text: &mut Vec<u8>, spared: Option<ReplicaId>) -> Result<(), AllocError>
    ensures { OnOk result (text.new.items ≡ text.old.items ++ sparing_text spared) }
{
    let Some(replica) = spared else {
        return Ok(());
    };
    push_parts(
        text,
        &[
            Part::Text(b" sparing "),
            Part::Number(replica.index() as u64),
        ],
    )
}

// Appends a command that is proposed, with its client's request.
fn push_request(
    text: &mut Vec<u8>,
    client: u32,
    request: u32,
    command: &Command,
    seen: u64,
) -> Result<(), AllocError>
    ensures { OnOk result (text.new.items ≡ text.old.items ++ request_text client request command.now seen) }
{
    push_parts(
        text,
        &[
            Part::Text(b"propose "),
            Part::Command(command),
            Part::Text(b" (client "),
            Part::Number(client as u64),
            Part::Text(b" request "),
            Part::Number(request as u64),
            Part::Text(b" seen "),
            Part::Number(seen),
            Part::Text(b")"),
        ],
    )
}

fn push_handling(text: &mut Vec<u8>, frame: &Frame) -> Result<(), AllocError>
    ensures { OnOk result (text.new.items ≡ text.old.items ++ event_text (event.Handle frame.now)) }
{
    text.extend_from_slice(b"handle ")?;
    push_origin(text, frame)?;
    text.push(b' ')?;
    push_message(text, frame)
}

// Appends a word or two, and then an instance.
fn push_named(text: &mut Vec<u8>, name: &[u8], instance: InstanceId) -> Result<(), AllocError>
    ensures { OnOk result (text.new.items ≡ text.old.items ++ (name.now ++ instance_text instance)) }
{
    push_parts(text, &[Part::Text(name), Part::Instance(instance)])
}

/// Appends an event: a proposal with its command and its client's request, a handled frame with its origin and its message,
/// or the instance that is given up, recovered or executed.
pub fn push_event(text: &mut Vec<u8>, event: &Event) -> Result<(), AllocError>
    ensures { OnOk result (text.new.items ≡ text.old.items ++ event_text event.now) }
{
    match event {
        Event::Propose {
            client,
            request,
            command,
            seen,
            spared,
        } => {
            push_request(text, *client, *request, command, *seen)?;
            push_sparing(text, *spared)
        }
        Event::Handle(frame) => push_handling(text, frame),
        Event::GiveUp(instance) => push_named(text, b"give up ", *instance),
        Event::Recover(instance) => push_named(text, b"recover ", *instance),
        Event::Execute(instance) => push_named(text, b"execute ", *instance),
    }
}

/// The words of a command, alone.
pub(crate) fn command_words(alloc: Global, command: &Command) -> Result<Vec<u8>, AllocError>
    ensures { IfOk result (λ words. words.items ≡ command_text command.now) }
{
    let mut words = Vec::new(alloc);
    push_command(&mut words, command)?;
    Ok(words)
}
