//! What a node takes.

ghost use Rattle.std.specs.Prelude.{◌≡◌, false, length, None, Some, IfErr, OnOk, OnErr};
ghost use Rattle.ep_serve.specs.Acting.{ExecutesAll, StopsShort, TakesNear};
ghost use Rattle.ep_serve.specs.declared.pending_answer.PendingAnswer.{PendingAnswer as Answer};
ghost use Rattle.ep_serve.specs.declared.pending_answer.PendingAnswer.TheVariants.{Refused, Taken};
ghost use Rattle.ep_embedded.specs.Hosting.{Grows};
ghost use Rattle.ep_embedded.specs.Taking.{refusal_of};

use crate::call::Call;
use crate::hosted::Hosted;
use crate::taking_fault::TakingFault;
use ep_base::{Command, CommandFault, InstanceId};
use ep_device::HostDevice;
use ep_frame::Frame;
use ep_journal::{Event, Refusal, StepFault};
use ep_node::Node;
use ep_serve::{PendingAnswer, act, advance_own, execute_own};
use ep_wire::Request;
use std::alloc::{AllocError, Global};

/// Why an event was refused, where that is the answer.
fn refusal_of(due: &PendingAnswer) -> Option<Refusal>
    ensures { result ≡ refusal_of due.now }
{
    match due {
        PendingAnswer::Refused(refusal) => Some(*refusal),
        PendingAnswer::Taken { .. }
        | PendingAnswer::Value(_)
        | PendingAnswer::Open(_)
        | PendingAnswer::Leads(_)
        | PendingAnswer::Synced
        | PendingAnswer::State
        | PendingAnswer::Ready { .. }
        | PendingAnswer::Handled(_)
        | PendingAnswer::Interfering(_)
        | PendingAnswer::Read { .. }
        | PendingAnswer::Malformed(_) => None,
    }
}

/// What came of an event whose answer this is.
fn came_of(due: PendingAnswer) -> Result<(), Refusal>
    ensures ok { OnOk result (refusal_of due ≡ None) }
    ensures err { IfErr result (λ refusal. refusal_of due ≡ Some refusal) }
{
    let refusal = refusal_of(&due);
    drop(due);
    match refusal {
        Some(refusal) => Err(refusal),
        None => Ok(()),
    }
}

/// The node takes an event, or refuses it.
#[tactic(auto, using(crate::proofs::Refusals::taken_if, crate::proofs::Refusals::refused_if, crate::proofs::Longer::takes_grow))]
fn take_event(node: &mut Node<HostDevice>, event: Event) -> Result<(), Refusal>
    requires { node.old.closed ≡ false }
    ensures ok { OnOk result (TakesNear node.old.replica event (Taken (length node.old.replica.entries) 1) node.new.replica) }
    ensures same { node.new ≡ record node.old { replica = node.new.replica } }
    ensures grows { Grows node.old.replica node.new.replica }
    ensures err { IfErr result (λ refusal. TakesNear node.old.replica event (Refused refusal) node.old.replica × (node.new ≡ node.old)) }
{
    let Ok(due) = act(node, Request::Event(event)) else {
        // No event fails at a node whose device works.
        unreachable!()
    };
    came_of(due)
}

/// The node executes all instances that are ready.
#[tactic(auto, using(crate::proofs::Requests::swept, crate::proofs::Longer::acts_grow, crate::proofs::Longer::undone_grows))]
fn sweep_at(node: &mut Node<HostDevice>) -> Result<(), AllocError>
    requires { node.old.closed ≡ false }
    ensures ok { OnOk result ((reported : Answer) × ExecutesAll node.old.replica reported node.new.replica) }
    ensures same { node.new ≡ record node.old { replica = node.new.replica } }
    ensures grows { Grows node.old.replica node.new.replica }
    ensures err { OnErr result (StopsShort node.old.replica node.new.replica) }
{
    let _reported = act(node, Request::ExecuteAll)?;
    Ok(())
}

impl Hosted {
    ghost use Rattle.std.specs.Prelude.{◌≡◌, ◌<◌, ◌↔◌, ◌⊎◌, Err, IfOk, IfErr, OnOk, length};
    ghost use Rattle.ep_base.specs.Commands.{Put};
    ghost use Rattle.ep_base.specs.Values.{most_value};
    ghost use Rattle.ep_journal.specs.declared.event.Event.TheVariants.{Propose, Handle, GiveUp, Recover, Execute};
    ghost use Rattle.ep_embedded.specs.Taking.{HasAdvanced, HasExecuted, HasLeftOff, HasStopped, HasSwept, HasTaken, IsNotExecuted, IsNotTaken, IsUnheard};

    /// Takes an event, which isn't on the disk before it was lent and `synced`; also while others are lent. What is refused has changed nothing.
    pub fn take(&mut self, event: Event) -> Result<(), TakingFault>
        ensures ok { OnOk result (HasTaken self.old event self.new) }
        ensures err { IfErr result (λ fault. IsNotTaken self.old event fault self.new) }
    {
        if self.is_anew() {
            drop(event);
            return Err(TakingFault::Lent);
        }
        take_event(&mut self.node, event)?;
        Ok(())
    }

    /// Proposes a client's command. A seen stamp that is more than 2^40 above that of the last entry is refused (`StampFull`), and so is a spared replica
    /// that is none of the others of the cluster, or that is named in version 2 (`OutOfRange`).
    pub fn propose(&mut self, call: Call, command: Command) -> Result<(), TakingFault>
        ensures ok { OnOk result (HasTaken self.old (Propose call.client call.request command call.seen call.spared) self.new) }
        ensures err { IfErr result (λ fault. IsNotTaken self.old (Propose call.client call.request command call.seen call.spared) fault self.new) }
    {
        let Call {
            client,
            request,
            seen,
            spared,
        } = call;
        self.take(Event::Propose {
            client,
            request,
            command,
            seen,
            spared,
        })
    }

    /// The put of this key and value, which a proposal then takes; `OutOfRange` unless the key has 1 to 255 bytes and the value at most 65,535.
    pub fn put(&mut self, alloc: Global, key: &[u8], value: &[u8]) -> Result<Command, CommandFault>
        ensures ok { IfOk result (λ c. c ≡ Put key.now value.now) }
        ensures out_of_range { result ≡ Err CommandFault.OutOfRange ↔ ((length key.now ≡ 0) ⊎ (255 < length key.now) ⊎ (most_value < length value.now)) }
        ensures same { self.new ≡ self.old }
    {
        self.blocks.put(alloc, key, value)
    }

    /// Handles bytes that came from a peer; `BadFrame` where they are no frame.
    pub fn handle(&mut self, alloc: Global, bytes: &[u8]) -> Result<(), TakingFault>
        ensures ok { OnOk result (HasTaken self.old (Handle bytes.now) self.new) }
        ensures err { IfErr result (λ fault. IsUnheard self.old bytes.now fault self.new) }
    {
        if self.is_anew() {
            return Err(TakingFault::Lent);
        }
        let Ok(bytes) = self.blocks.copy(alloc, bytes) else {
            return Err(TakingFault::Refused(Refusal::Step(StepFault::Memory)));
        };
        match Frame::read(bytes) {
            Ok(frame) => self.take(Event::Handle(frame)),
            Err(_) => Err(TakingFault::Refused(Refusal::BadFrame)),
        }
    }

    /// Waits no longer for the fast quorum of an own instance.
    pub fn give_up(&mut self, instance: InstanceId) -> Result<(), TakingFault>
        ensures ok { OnOk result (HasTaken self.old (GiveUp instance) self.new) }
        ensures err { IfErr result (λ fault. IsNotTaken self.old (GiveUp instance) fault self.new) }
    {
        self.take(Event::GiveUp(instance))
    }

    /// Takes over an instance, by explicit prepare.
    pub fn recover(&mut self, instance: InstanceId) -> Result<(), TakingFault>
        ensures ok { OnOk result (HasTaken self.old (Recover instance) self.new) }
        ensures err { IfErr result (λ fault. IsNotTaken self.old (Recover instance) fault self.new) }
    {
        self.take(Event::Recover(instance))
    }

    /// Executes the instance, and before it all that it depends on; `NotCommitted` names one that it waits for.
    pub fn execute(&mut self, instance: InstanceId) -> Result<(), TakingFault>
        ensures ok { OnOk result (HasTaken self.old (Execute instance) self.new) }
        ensures err { IfErr result (λ fault. IsNotTaken self.old (Execute instance) fault self.new) }
    {
        self.take(Event::Execute(instance))
    }

    /// Executes the least own instance that is ready, with all that it waits for: one entry more, and `true`; `false` where none is ready.
    pub fn execute_next(&mut self) -> Result<bool, TakingFault>
        ensures ok { IfOk result (λ executed. HasExecuted self.old executed self.new) }
        ensures err { IfErr result (λ fault. IsNotExecuted self.old fault self.new) }
    {
        if self.is_anew() {
            return Err(TakingFault::Lent);
        }
        let executed = match execute_own(&mut self.node) {
            Ok(executed) => executed,
            Err(fault) => return Err(TakingFault::Refused(Refusal::Step(fault))),
        };
        Ok(executed)
    }

    /// Executes all own instances that are ready, in rising order, until none is. After `Refused`, when out of memory or of stamps, those before the one that
    /// was refused have been executed; after `Lent` none has.
    pub fn advance(&mut self) -> Result<(), TakingFault>
        ensures ok { OnOk result (HasAdvanced self.old self.new) }
        ensures err { IfErr result (λ fault. HasStopped self.old fault self.new) }
    {
        if self.is_anew() {
            return Err(TakingFault::Lent);
        }
        advance_own(&mut self.node)?;
        Ok(())
    }

    /// Executes all instances that are ready, own or not: before a local read, or where a machine outside is to keep up. After `Refused`, when out of memory,
    /// some have been executed, each in its turn; after `Lent` none has.
    pub fn execute_all(&mut self) -> Result<(), TakingFault>
        ensures ok { OnOk result (HasSwept self.old self.new) }
        ensures err { IfErr result (λ fault. HasLeftOff self.old fault self.new) }
    {
        if self.is_anew() {
            return Err(TakingFault::Lent);
        }
        match sweep_at(&mut self.node) {
            Ok(()) => Ok(()),
            Err(_) => Err(TakingFault::Refused(Refusal::Step(StepFault::Memory))),
        }
    }
}
