//! What a request does to a node.

ghost use Rattle.std.specs.Prelude.{◌≡◌, ◌↔◌, ℕ, true, false, IsTrue, IfOk, OnErr};
ghost use Rattle.ep_node.specs.Nodes.{Logged};
ghost use Rattle.ep_replica.specs.Kept.{Kept};
ghost use Rattle.ep_serve.specs.Acting.{seen_by, Acts, IsFarAhead, IsPassedOver, IsUndone, TakesNear, TakesOrRefuses};

use crate::advancing::advance_all;
use crate::executing::execute_all;
use crate::pending_answer::PendingAnswer;
use ep_device::Device;
use ep_journal::{Event, Refusal, StepFault};
use ep_node::{Node, NodeFault};
use ep_wire::Request;
use std::alloc::AllocError;

/// How far above the stamp of the replica's last entry a stamp may be that a client has seen: 2^40. Stamps are below 2^48, and
/// a replica goes on from the greatest that it is given; so that one wrong word doesn't use them up.
const REACH: u64 = 1_099_511_627_776;

/// The node takes an event, or refuses it.
fn take<D: Device>(node: &mut Node<D>, event: Event) -> Result<PendingAnswer, AllocError>
    ensures ok { IfOk result (λ due. TakesOrRefuses node.old.replica event due node.new.replica) }
    ensures same { node.new ≡ record node.old { replica = node.new.replica } }
    ensures err { OnErr result (IsPassedOver node.old node.new) }
{
    let from = node.taken();
    match node.step(event) {
        Ok(()) => Ok(PendingAnswer::Taken { from, count: 1 }),
        Err(NodeFault::Refused(fault)) => Ok(PendingAnswer::Refused(Refusal::Step(fault))),
        // No other fault comes of a node whose device works.
        Err(_) => Err(AllocError),
    }
}

/// Whether a client has seen a stamp that is too far ahead of the replica's.
pub fn is_far_ahead<D: Device>(node: &Node<D>, seen: u64) -> bool
    ensures { IsTrue result ↔ IsFarAhead node.now.replica seen }
{
    let last = node.last_stamp();
    last < seen && REACH < seen - last
}

/// The stamp that the event's client has seen; 0 where no client asks for it.
fn seen_by(event: &Event) -> u64
    ensures { result ≡ seen_by event.now }
{
    match event {
        Event::Propose {
            client: _,
            request: _,
            command: _,
            seen,
            spared: _,
        } => *seen,
        Event::Handle(_) | Event::GiveUp(_) | Event::Recover(_) | Event::Execute(_) => 0,
    }
}

/// The node takes an event unless its client has seen a stamp that is too far ahead, or refuses it.
fn take_near<D: Device>(node: &mut Node<D>, event: Event) -> Result<PendingAnswer, AllocError>
    ensures ok { IfOk result (λ due. TakesNear node.old.replica event due node.new.replica) }
    ensures same { node.new ≡ record node.old { replica = node.new.replica } }
    ensures err { OnErr result (IsPassedOver node.old node.new) }
{
    let seen = seen_by(&event);
    if is_far_ahead(node, seen) {
        drop(event);
        return Ok(PendingAnswer::Refused(Refusal::Step(StepFault::StampFull)));
    }
    take(node, event)
}

/// Does what the request asks, none of which is on the disk yet, and reports the answer that is due for it. `Err` where the node's device has failed, and
/// nothing changed; and when out of memory in executing all that is ready, own or not, of which some may have been executed. No other request fails at a
/// node whose device works.
pub fn act<D: Device>(node: &mut Node<D>, request: Request) -> Result<PendingAnswer, AllocError>
    ensures ok { IfOk result (λ due. Acts node.old.replica request due node.new.replica) }
    ensures same { node.new ≡ record node.old { replica = node.new.replica } }
    ensures err { OnErr result (IsUndone node.old request node.new) }
{
    match request {
        Request::Event(event) => take_near(node, event),
        Request::BadFrame => Ok(PendingAnswer::Refused(Refusal::BadFrame)),
        Request::Advance => advance_all(node),
        Request::Get(key) => Ok(PendingAnswer::Value(key)),
        Request::NextOpen(after) => Ok(PendingAnswer::Open(after)),
        Request::Leads(instance) => Ok(PendingAnswer::Leads(instance)),
        Request::Sync => Ok(PendingAnswer::Synced),
        Request::State => Ok(PendingAnswer::State),
        Request::ExecuteAll => execute_all(node),
        Request::Ready { after, most } => Ok(PendingAnswer::Ready { after, most }),
        Request::Handled(peer) => Ok(PendingAnswer::Handled(peer)),
        Request::Interfering(key) => Ok(PendingAnswer::Interfering(key)),
        Request::Read { key, found } => Ok(PendingAnswer::Read { key, found }),
        Request::Malformed(malformed) => Ok(PendingAnswer::Malformed(malformed)),
    }
}
