//! What clients ask for.

ghost use Rattle.std.specs.Prelude.{◌≡◌, Some, IfOk, OnErr};
ghost use Rattle.ep_base.specs.Commands.{Get, Put, Del, Swap, Cas, Opaque, Seal, Tx};
ghost use Rattle.ep_base.specs.CommandParts.{items_in, is_tx};
ghost use Rattle.ep_base.specs.Views.{touched};
ghost use Rattle.ep_library.specs.Arguments.{named_in, part, touched_in, IsNamed};
ghost use Rattle.ep_library.specs.Calls.{proposal, Asks, Made, Proposes, ProposesMany};

use crate::call::Call;
use crate::codes::command_status;
use crate::events::{take, take_status};
use crate::exchange::Exchange;
use crate::making::part;
use crate::status::OUT_OF_RANGE;
use crate::touching::Touching;
use ep_base::{Command, CommandFault, OutOfRange, ReplicaId};
use ep_embedded::Hosted;
use ep_handle::Handle;
use ep_journal::Event;
use std::alloc::Global;
use std::mem;

/// The replica that the proposal names, if any.
fn named_in(call: &Call) -> Result<Option<ReplicaId>, OutOfRange>
    ensures ok { IfOk result (λ named. named ≡ named_in call.now) }
    ensures err { OnErr result (¬ IsNamed call.now) }
{
    if call.has_spared == 0 {
        return Ok(None);
    }
    match ReplicaId::new(call.spared) {
        Ok(replica) => Ok(Some(replica)),
        Err(fault) => Err(fault),
    }
}

/// A client's proposal; it spares the replica that the call names.
fn proposal(call: &Call, command: Command, spared: Option<ReplicaId>) -> Event
    requires { spared ≡ named_in call.now }
    ensures { result ≡ proposal call.now command }
{
    Event::Propose {
        client: call.client,
        request: call.request,
        command,
        seen: call.seen,
        spared,
    }
}

/// The replica, if there is one, takes a client's proposal of the command.
fn ask(alloc: Global, handle: &mut Handle, call: &Call, command: Command) -> u8
    ensures { Asks result handle.old.value call.now command handle.new.value }
{
    match named_in(call) {
        Err(_) => OUT_OF_RANGE,
        Ok(spared) => take(alloc, handle, proposal(call, command, spared)),
    }
}

/// The replica, if there is one, takes a client's proposal of the command, if that was made.
fn propose(
    alloc: Global,
    handle: &mut Handle,
    call: &Call,
    made: Result<Command, CommandFault>,
) -> u8
    ensures { Made result handle.old.value call.now made handle.new.value }
{
    match made {
        Err(fault) => command_status(fault),
        Ok(command) => ask(alloc, handle, call, command),
    }
}

/// A client asks for the value of a key. As any command it is put in order with all others that name the key, so it sees all that was answered before. Its answer, like every
/// command's, comes by `ep_answers`, as a receipt, once the command was executed. EP_NO_REPLICA, EP_LENT, EP_MEMORY; EP_OUT_OF_RANGE: a key hasn't 1 to 255 bytes, a value has
/// more than 65,535, two keys are the same, a client or a request is 0, the spared replica isn't another one of the cluster, or the version hasn't what is asked (version 2 has get, put,
/// del and swap, values of up to 1,024 bytes, and spares the usual replica); EP_SPACE_FULL; EP_SEQ_EXHAUSTED; EP_STAMP_FULL.
#[unsafe(no_mangle)]
pub extern "C" fn ep_propose_get(alloc: Global, handle: &mut Handle, call: &Call, key: &[u8]) -> u8
    ensures { Proposes result handle.old.value call.now (Get key.now) handle.new.value }
{
    propose(alloc, handle, call, Command::get(alloc, key))
}

/// The replica takes a client's proposal of the command.
fn asks(hosted: &mut Hosted, call: &Call, command: Command) -> u8
    ensures { Asks result (Some hosted.old) call.now command (Some hosted.new) }
{
    match named_in(call) {
        Err(_) => OUT_OF_RANGE,
        Ok(spared) => take_status(hosted, proposal(call, command, spared)),
    }
}

/// The replica takes a client's proposal of the command, if that was made.
fn proposes(hosted: &mut Hosted, call: &Call, made: Result<Command, CommandFault>) -> u8
    ensures { Made result (Some hosted.old) call.now made (Some hosted.new) }
{
    match made {
        Err(fault) => command_status(fault),
        Ok(command) => asks(hosted, call, command),
    }
}

/// The replica takes a client's put.
fn put_status(alloc: Global, hosted: &mut Hosted, call: &Call, key: &[u8], value: &[u8]) -> u8
    ensures { Proposes result (Some hosted.old) call.now (Put key.now value.now) (Some hosted.new) }
{
    let made = hosted.put(alloc, key, value);
    proposes(hosted, call, made)
}

/// A client gives a key a value. The answer is what it had. Statuses are those of `ep_propose_get`.
#[unsafe(no_mangle)]
pub extern "C" fn ep_propose_put(
    alloc: Global,
    handle: &mut Handle,
    call: &Call,
    key: &[u8],
    value: &[u8],
) -> u8
    ensures { Proposes result handle.old.value call.now (Put key.now value.now) handle.new.value }
{
    let held = mem::replace(handle, Handle::empty());
    match held.into_box(alloc) {
        None => propose(alloc, handle, call, Command::put(alloc, key, value)),
        Some(mut hosted) => {
            let status = put_status(alloc, &mut hosted, call, key, value);
            *handle = Handle::of(hosted);
            status
        }
    }
}

/// A client takes a key's value away. The answer is what it had. Statuses are those of `ep_propose_get`.
#[unsafe(no_mangle)]
pub extern "C" fn ep_propose_del(alloc: Global, handle: &mut Handle, call: &Call, key: &[u8]) -> u8
    ensures { Proposes result handle.old.value call.now (Del key.now) handle.new.value }
{
    propose(alloc, handle, call, Command::del(alloc, key))
}

/// A client has the values of two different keys change places. The answer is what the first had. Statuses are those of `ep_propose_get`.
#[unsafe(no_mangle)]
pub extern "C" fn ep_propose_swap(
    alloc: Global,
    handle: &mut Handle,
    call: &Call,
    first: &[u8],
    second: &[u8],
) -> u8
    ensures { Proposes result handle.old.value call.now (Swap (record { first = first.now; second = second.now })) handle.new.value }
{
    propose(alloc, handle, call, Command::swap(alloc, first, second))
}

/// A client compares and sets: if the key has what is expected, it gets what is desired. The answer is what it had, so the client knows whether that was done. Statuses
/// are those of `ep_propose_get`.
#[unsafe(no_mangle)]
pub extern "C" fn ep_propose_cas(
    alloc: Global,
    handle: &mut Handle,
    call: &Call,
    key: &[u8],
    exchange: &Exchange<'_>,
) -> u8
    ensures { Proposes result handle.old.value call.now (Cas key.now (part exchange.now.has_expected exchange.now.expected.now) (part exchange.now.has_desired exchange.now.desired.now)) handle.new.value }
{
    let expected = part(exchange.has_expected, exchange.expected);
    let desired = part(exchange.has_desired, exchange.desired);
    propose(
        alloc,
        handle,
        call,
        Command::cas(alloc, key, expected, desired),
    )
}

/// What the command of a machine outside touches.
fn touching_of<'a>(touching: &Touching<'a>) -> ep_base::Touching<'a>
    ensures { touched result ≡ touched_in touching.now }
{
    ep_base::Touching {
        first: touching.first,
        second: part(touching.has_second, touching.second),
        reads: touching.is_reading != 0,
    }
}

/// A client asks for a command of a machine of your own: the core puts it in order by its keys, and `ep_answers` says when it is executed; what its body says only your
/// machine knows. Statuses are those of `ep_propose_get`.
#[unsafe(no_mangle)]
pub extern "C" fn ep_propose_opaque(
    alloc: Global,
    handle: &mut Handle,
    call: &Call,
    touching: &Touching<'_>,
    body: &[u8],
) -> u8
    ensures { Proposes result handle.old.value call.now (Opaque (touched_in touching.now) body.now) handle.new.value }
{
    propose(
        alloc,
        handle,
        call,
        Command::opaque(alloc, &touching_of(touching), body),
    )
}

/// A client asks for a command over 1 to 1,024 keys, as the body says (docs/FORMATS.md, section 1): what each of some
/// keys must have, which at most 16 keys the answer tells, and what is written. If each has what it must, all is
/// written, and the answer is EP_REPLY_DONE; else nothing is, and it is EP_REPLY_UNDONE. `ep_write_tx` writes bodies.
/// Statuses are those of `ep_propose_get`; EP_OUT_OF_RANGE, too: the body is none.
#[tactic(auto, using(crate::proofs::Bodies::proposes_many))]
#[unsafe(no_mangle)]
pub extern "C" fn ep_propose_tx(alloc: Global, handle: &mut Handle, call: &Call, body: &[u8]) -> u8
    ensures { ProposesMany result handle.old.value call.now body.now handle.new.value }
{
    propose(alloc, handle, call, Command::tx(alloc, body))
}

/// A client closes the map, and so ends the generation. The value is yours: say who takes part in the next one. Statuses are those of `ep_propose_get`.
#[unsafe(no_mangle)]
pub extern "C" fn ep_propose_seal(
    alloc: Global,
    handle: &mut Handle,
    call: &Call,
    value: &[u8],
) -> u8
    ensures { Proposes result handle.old.value call.now (Seal value.now) handle.new.value }
{
    propose(alloc, handle, call, Command::seal(alloc, value))
}
