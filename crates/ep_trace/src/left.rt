//! What is left at a replay's end.

ghost use Rattle.std.specs.Prelude.{◌≡◌, ◌<◌, ◌≤◌, ◌++◌, ℕ, List, Some, OnOk};
ghost use Rattle.ep_base.specs.Quorums.{size};
ghost use Rattle.ep_trace.specs.Left.{frame_text, leading_text, ungiven_line, ungiven_lines, phase_text, waiting_text, spot_text, open_line, AddsOpen, OpenBelow, AddsLeft};
ghost use Rattle.ep_world.specs.Played.{message_in, replica_in};

use ep_base::{InstanceId, ReplicaId};
use ep_frame::Frame;
use ep_phase::LeadPhase;
use ep_replica::Replica;
use ep_report::{Part, push_parts};
use ep_view::push_message;
use ep_world::World;
use std::alloc::AllocError;

// Appends from whom to whom a frame is, and its words.
fn push_frame(text: &mut Vec<u8>, frame: &Frame) -> Result<(), AllocError>
    ensures { OnOk result (text.new.items ≡ text.old.items ++ frame_text frame.now) }
{
    push_parts(
        text,
        &[
            Part::Text(b" from "),
            Part::Number(frame.from().index() as u64),
            Part::Text(b" to "),
            Part::Number(frame.origin().to.index() as u64),
            Part::Text(b": "),
        ],
    )?;
    push_message(text, frame)
}

// Appends the line of a message that was never given.
fn push_ungiven(text: &mut Vec<u8>, message: u64, frame: &Frame) -> Result<(), AllocError>
    ensures { OnOk result (text.new.items ≡ text.old.items ++ ungiven_line message (Some frame.now)) }
{
    push_parts(
        text,
        &[Part::Text(b"never given  #"), Part::Number(message)],
    )?;
    push_frame(text, frame)?;
    text.push(b'\n')?;
    Ok(())
}

// Appends the line of the message of this number, if there is one.
fn push_numbered(text: &mut Vec<u8>, world: &World, message: u64) -> Result<(), AllocError>
    ensures { OnOk result (text.new.items ≡ text.old.items ++ ungiven_line message (message_in world.now message)) }
{
    match world.message(message) {
        Some(frame) => push_ungiven(text, message, frame),
        None => Ok(()),
    }
}

// Appends the lines of the messages of these numbers, which were never given.
fn push_all_ungiven(text: &mut Vec<u8>, world: &World, messages: &[u64]) -> Result<(), AllocError>
    ensures { OnOk result (text.new.items ≡ text.old.items ++ ungiven_lines world.now messages.now) }
{
    for message in messages {
        push_numbered(text, world, *message)?;
    }
    Ok(())
}

// That a replica leads an instance in this phase.
fn phase_words(phase: LeadPhase) -> &'static [u8]
    ensures { result.now ≡ phase_text phase }
{
    match phase {
        LeadPhase::Proposing => b", which leads it: PreAccepts are out",
        LeadPhase::Accepting => b", which leads it: Accepts are out",
        LeadPhase::Preparing => b", which leads it: Prepares are out",
    }
}

// Appends how far a replica is that leads an instance.
fn push_leading(text: &mut Vec<u8>, phase: LeadPhase, answers: u8) -> Result<(), AllocError>
    ensures { OnOk result (text.new.items ≡ text.old.items ++ leading_text phase answers) }
{
    push_parts(
        text,
        &[
            Part::Text(phase_words(phase)),
            Part::Text(b", answers of others so far: "),
            Part::Number(answers as u64),
        ],
    )
}

// Appends what the replica waits for.
fn push_waiting(text: &mut Vec<u8>, progress: Option<(LeadPhase, u8)>) -> Result<(), AllocError>
    ensures { OnOk result (text.new.items ≡ text.old.items ++ waiting_text progress) }
{
    match progress {
        None => text.extend_from_slice(b", which waits for a Commit, or has to recover it"),
        Some((phase, answers)) => push_leading(text, phase, answers),
    }
}

// Appends where an instance isn't committed.
fn push_spot(text: &mut Vec<u8>, replica: ReplicaId, instance: InstanceId) -> Result<(), AllocError>
    ensures { OnOk result (text.new.items ≡ text.old.items ++ spot_text replica instance) }
{
    push_parts(
        text,
        &[
            Part::Instance(instance),
            Part::Text(b" at replica "),
            Part::Number(replica.index() as u64),
        ],
    )
}

// Appends the line of an instance that isn't committed.
fn push_open(
    text: &mut Vec<u8>,
    replica: ReplicaId,
    instance: InstanceId,
    progress: Option<(LeadPhase, u8)>,
) -> Result<(), AllocError>
    ensures { OnOk result (text.new.items ≡ text.old.items ++ open_line replica instance progress) }
{
    text.extend_from_slice(b"not committed  ")?;
    push_spot(text, replica, instance)?;
    push_waiting(text, progress)?;
    text.push(b'\n')?;
    Ok(())
}

// Appends the lines of what a replica knows of and hasn't committed.
fn push_all_open(text: &mut Vec<u8>, replica: &Replica) -> Result<(), AllocError>
    ensures { OnOk result (AddsOpen replica.now text.old.items text.new.items) }
{
    let mut next = replica.next_open(None);
    while let Some(instance) = next {
        // (that it is in range is known by asking for its number)
        let _number = instance.number();
        push_open(text, replica.me(), instance, replica.leads(instance))?;
        next = replica.next_open(Some(instance));
    }
    Ok(())
}

// Appends those of the replica of this number.
fn push_replica(text: &mut Vec<u8>, world: &World, replica: u8) -> Result<(), AllocError>
    requires low { replica ≤ 6 }
    requires there { replica < size world.now.faults }
    ensures { OnOk result (AddsOpen (replica_in world.now replica) text.old.items text.new.items) }
{
    let Ok(replica) = ReplicaId::new(replica) else {
        unreachable!()
    };
    match world.replica(replica) {
        Some(replica) => push_all_open(text, replica),
        None => unreachable!(),
    }
}

// Appends those of each replica.
fn push_each_open(text: &mut Vec<u8>, world: &World) -> Result<(), AllocError>
    ensures { OnOk result ((more : List ℕ) × OpenBelow world.now (size world.now.faults) more × (text.new.items ≡ text.old.items ++ more)) }
{
    for replica in 0..world.size().count() {
        push_replica(text, world, replica)?;
    }
    Ok(())
}

/// Appends the messages of these numbers, which were never given, and then what each replica knows of and hasn't committed.
pub(crate) fn push_left(
    text: &mut Vec<u8>,
    world: &World,
    ungiven: &[u64],
) -> Result<(), AllocError>
    ensures { OnOk result (AddsLeft world.now ungiven.now text.old.items text.new.items) }
{
    push_all_ungiven(text, world, ungiven)?;
    push_each_open(text, world)
}
