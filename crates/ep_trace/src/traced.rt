//! A script's replay, reported.

ghost use Rattle.std.specs.Prelude.{◌≡◌, ◌++◌, OnOk, IfOk};
ghost use Rattle.ep_trace.specs.Left.{AddsLeft};
ghost use Rattle.ep_ending.specs.Endings.{AddsEndings};
ghost use Rattle.ep_trace.specs.Traced.{given_by, entry_line, tried_line, tried_lines, IsReported, IsTraced};
ghost use Rattle.ep_view.specs.Editions.{edition_line};
ghost use Rattle.ep_world.specs.Played.{collected, entries_in, numbered};

use crate::left::push_left;
use crate::lines::{push_made, push_refused};
use crate::numbers::Numbers;
use ep_base::ReplicaId;
use ep_ending::push_endings;
use ep_replay::{Ended, Outcome, Tried, play};
use ep_script::Script;
use ep_view::push_edition;
use ep_world::{World, WorldEvent};
use std::alloc::{AllocError, Global};

/// The message that the event gives.
fn given_by(event: &WorldEvent) -> Option<u64>
    ensures { result ≡ given_by event.now }
{
    match event {
        WorldEvent::Deliver(message) => Some(*message),
        WorldEvent::Propose { .. }
        | WorldEvent::GiveUp { .. }
        | WorldEvent::Recover { .. }
        | WorldEvent::Execute { .. } => None,
    }
}

/// Appends the line of the event, with these numbers, that made this entry of the replica.
fn push_entry(
    text: &mut Vec<u8>,
    world: &World,
    numbers: Numbers,
    replica: ReplicaId,
    entry: u32,
) -> Result<(), AllocError>
    ensures { OnOk result (text.new.items ≡ text.old.items ++ entry_line numbers replica (numbered (entries_in world.now replica) entry)) }
{
    match world.entry(replica, entry) {
        Some(entry) => push_made(text, numbers, replica, entry),
        None => Ok(()),
    }
}

/// Appends the line of an event that was tried.
fn push_tried(text: &mut Vec<u8>, world: &World, tried: &Tried) -> Result<(), AllocError>
    ensures { OnOk result (text.new.items ≡ text.old.items ++ tried_line world.now tried.now) }
{
    match &tried.outcome {
        Outcome::Took {
            replica,
            entry,
            first,
        } => {
            let numbers = Numbers {
                line: tried.line,
                given: given_by(&tried.event),
                first: *first,
            };
            push_entry(text, world, numbers, *replica, *entry)
        }
        Outcome::Refused(cause) => push_refused(text, tried.line, &tried.event, *cause),
    }
}

/// Appends the lines of all events that were tried.
fn push_all_tried(text: &mut Vec<u8>, world: &World, tried: &[Tried]) -> Result<(), AllocError>
    ensures { OnOk result (text.new.items ≡ text.old.items ++ tried_lines world.now tried.now) }
{
    for one in tried {
        push_tried(text, world, one)?;
    }
    Ok(())
}

/// Appends the line of the edition, the events that were tried, and what is left.
fn push_ended(text: &mut Vec<u8>, ended: &Ended) -> Result<(), AllocError>
    ensures { OnOk result (AddsLeft ended.now.world ended.now.ungiven.items (text.old.items ++ edition_line ended.now.world.version ended.now.world.opening ++ tried_lines ended.now.world ended.now.tried.items) text.new.items) }
{
    let tried = ended.tried.as_slice();
    let ungiven = ended.ungiven.as_slice();
    push_edition(text, ended.world.version(), ended.world.opening())?;
    push_all_tried(text, &ended.world, tried)?;
    push_left(text, &ended.world, ungiven)
}

/// Appends what would end what is open in a world.
fn push_next(alloc: Global, text: &mut Vec<u8>, world: World) -> Result<(), AllocError>
    ensures { OnOk result (AddsEndings (collected world) text.old.items text.new.items) }
{
    let journals = world.into_journals(alloc)?;
    let reported = push_endings(alloc, text, &journals);
    drop(journals);
    reported
}

/// What is reported of where a script's lines have led.
fn reported(alloc: Global, ended: Ended) -> Result<Vec<u8>, AllocError>
    ensures { IfOk result (λ text. IsReported ended text.items) }
{
    let mut text = Vec::new(alloc);
    push_ended(&mut text, &ended)?;
    let Ended {
        world,
        receipts,
        tried,
        ungiven,
    } = ended;
    drop(receipts);
    drop(tried);
    drop(ungiven);
    push_next(alloc, &mut text, world)?;
    Ok(text)
}

/// Plays the script in a world of its size and version, as `ep_replay` does, and reports each event, a line each, in
/// order: the number of its line in the script, and why it was refused, or its entry, with the number of the message
/// that it gives and of each that it sends, to whom, and what it executes. At the end stand each message that was never
/// given, and each instance that a replica knows of and hasn't committed, with what it waits for; and then what would
/// end what is open. Of version 3 a line stands first that reports the generation, the stamp that clocks went on from,
/// and how many keys the opening has, with the digest of what they have.
pub fn trace(alloc: Global, script: &Script) -> Result<Vec<u8>, AllocError>
    ensures { IfOk result (λ text. IsTraced script.now text.items) }
{
    let ended = play(alloc, script)?;
    reported(alloc, ended)
}
