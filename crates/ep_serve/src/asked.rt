//! Answers of what a replica is asked.

ghost use Rattle.std.specs.Prelude.{◌≡◌, ℕ, List, IfOk, OnOk};
ghost use Rattle.std.specs.Io.KnownBytes.{Appends};
ghost use Rattle.ep_base.specs.Commands.{Get};
ghost use Rattle.ep_serve.specs.Answering.{leading_of, reading_bytes, AnswersOne};
ghost use Rattle.ep_serve.specs.declared.pending_answer.PendingAnswer.TheVariants.{Handled, Interfering, Leads, Open, Read, State, Value};

use crate::answer_fault::AnswerFault;
use crate::reporting::reported_state;
use ep_base::{Command, InstanceId, Key, ReplicaId, Sink};
use ep_node::handled_from;
use ep_phase::LeadPhase;
use ep_replica::{Reading, Replica};
use ep_wire::{
    Instances, LeadProgress, write_handled, write_instance, write_interfering, write_leading,
    write_no_value, write_reply, write_state, write_value, write_waits,
};
use std::alloc::Global;

/// What the replica's map has at the key.
pub(crate) fn put_asked_value<K: Sink>(
    sink: &mut K,
    replica: &Replica,
    key: &Key,
) -> Result<(), AnswerFault>
    ensures { OnOk result (AnswersOne replica.now (Value key.now) (K.held sink.old) (K.held sink.new)) }
{
    match replica.get(key) {
        Some(value) => write_value(sink, value)?,
        None => write_no_value(sink)?,
    }
    Ok(())
}

/// The next open instance above this one.
pub(crate) fn put_asked_open<K: Sink>(
    sink: &mut K,
    replica: &Replica,
    after: Option<InstanceId>,
) -> Result<(), AnswerFault>
    ensures { OnOk result (AnswersOne replica.now (Open after) (K.held sink.old) (K.held sink.new)) }
{
    let found = replica.next_open(after);
    write_instance(sink, found)?;
    Ok(())
}

/// What the replica leads, as it is written.
pub(crate) fn leading_of(phase: LeadPhase, answers: u8) -> LeadProgress
    ensures { result ≡ leading_of (phase, answers) }
{
    match phase {
        LeadPhase::Proposing => LeadProgress::Proposing(answers),
        LeadPhase::Accepting => LeadProgress::Accepting(answers),
        LeadPhase::Preparing => LeadProgress::Preparing(answers),
    }
}

/// What the replica leads in the instance.
pub(crate) fn put_asked_lead<K: Sink>(
    sink: &mut K,
    replica: &Replica,
    instance: InstanceId,
) -> Result<(), AnswerFault>
    ensures { OnOk result (AnswersOne replica.now (Leads instance) (K.held sink.old) (K.held sink.new)) }
{
    let leading = match replica.leads(instance) {
        Some((phase, answers)) => Some(leading_of(phase, answers)),
        None => None,
    };
    write_leading(sink, &leading)?;
    Ok(())
}

/// The greatest number of an entry of this other replica of which a frame was handled.
pub(crate) fn put_asked_handled<K: Sink>(
    sink: &mut K,
    replica: &Replica,
    peer: ReplicaId,
) -> Result<(), AnswerFault>
    ensures { OnOk result (AnswersOne replica.now (Handled peer) (K.held sink.old) (K.held sink.new)) }
{
    write_handled(sink, handled_from(peer, replica.journal().entries()))?;
    Ok(())
}

/// A get of the key.
fn get_of(alloc: Global, key: &Key) -> Result<Command, AnswerFault>
    ensures { IfOk result (λ c. c ≡ Get key.now) }
{
    match Command::get(alloc, key.as_slice()) {
        Ok(command) => Ok(command),
        Err(_) => Err(AnswerFault),
    }
}

/// What interferes with a read of the key.
pub(crate) fn put_asked_interfering<K: Sink>(
    alloc: Global,
    sink: &mut K,
    replica: &Replica,
    key: &Key,
) -> Result<(), AnswerFault>
    ensures { OnOk result (AnswersOne replica.now (Interfering key.now) (K.held sink.old) (K.held sink.new)) }
{
    let command = get_of(alloc, key)?;
    let found = replica.interfering(alloc, &command)?;
    if found.as_slice().len() > 63_000 {
        return Err(AnswerFault);
    }
    write_interfering(sink, found.as_slice())?;
    Ok(())
}

/// What a read is answered.
fn put_reading<K: Sink>(sink: &mut K, reading: &Reading) -> Result<(), AnswerFault>
    ensures { OnOk result (Appends (K.held sink.old) (K.held sink.new) (reading_bytes reading.now)) }
{
    match reading {
        Reading::Replied(reply) => write_reply(sink, reply)?,
        Reading::Waits(instance) => write_waits(sink, *instance)?,
    }
    Ok(())
}

/// What a read of the key is answered, for which these were found.
pub(crate) fn put_asked_read<K: Sink>(
    alloc: Global,
    sink: &mut K,
    replica: &Replica,
    key: &Key,
    found: &Instances,
) -> Result<(), AnswerFault>
    ensures { OnOk result (AnswersOne replica.now (Read key.now found.now) (K.held sink.old) (K.held sink.new)) }
{
    let command = get_of(alloc, key)?;
    let reading = replica.read(&command, found.as_slice())?;
    put_reading(sink, &reading)
}

/// What the node says of itself.
pub(crate) fn put_asked_state<K: Sink>(sink: &mut K, replica: &Replica) -> Result<(), AnswerFault>
    ensures { OnOk result (AnswersOne replica.now State (K.held sink.old) (K.held sink.new)) }
{
    let Some(state) = reported_state(replica) else {
        return Err(AnswerFault);
    };
    write_state(sink, &state)?;
    Ok(())
}
