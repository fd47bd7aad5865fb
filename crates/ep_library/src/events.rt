//! What happened to a replica.

ghost use Rattle.std.specs.Prelude.{◌≡◌};
ghost use Rattle.ep_journal.specs.declared.event.Event.TheVariants.{GiveUp, Recover};
ghost use Rattle.ep_library.specs.Arguments.{instance_in};
ghost use Rattle.ep_library.specs.Calls.{Acts, Advances, Hears, Sweeps, Takes, Unless};

use crate::codes::taking_status;
use crate::instance::Instance;
use crate::making::instance_in;
use crate::status::{DONE, NO_REPLICA, OUT_OF_RANGE};
use ep_embedded::Hosted;
use ep_handle::Handle;
use ep_journal::Event;
use std::alloc::Global;
use std::mem;

/// The replica takes an event.
pub(crate) fn take_status(hosted: &mut Hosted, event: Event) -> u8
    ensures { Takes result hosted.old event hosted.new }
{
    match hosted.take(event) {
        Ok(()) => DONE,
        Err(fault) => taking_status(fault),
    }
}

/// The replica, if there is one, takes an event.
pub(crate) fn take(alloc: Global, handle: &mut Handle, event: Event) -> u8
    ensures { Unless result handle.old.value handle.new.value (λ h k. Takes result h event k) }
{
    let held = mem::replace(handle, Handle::empty());
    match held.into_box(alloc) {
        None => NO_REPLICA,
        Some(mut hosted) => {
            let status = take_status(&mut hosted, event);
            *handle = Handle::of(hosted);
            status
        }
    }
}

/// The replica handles bytes that came from a peer.
fn hear_status(alloc: Global, hosted: &mut Hosted, bytes: &[u8]) -> u8
    ensures { Hears result hosted.old bytes.now hosted.new }
{
    match hosted.handle(alloc, bytes) {
        Ok(()) => DONE,
        Err(fault) => taking_status(fault),
    }
}

/// A frame came from a peer: its bytes, as that one's `ep_answers` gave them. EP_NO_REPLICA, EP_LENT, EP_MEMORY; EP_BAD_FRAME; EP_NOT_MINE; EP_OUT_OF_RANGE: a replica
/// of which it speaks isn't of the cluster; EP_SEQ_EXHAUSTED; EP_STAMP_FULL.
#[unsafe(no_mangle)]
pub extern "C" fn ep_handle(alloc: Global, handle: &mut Handle, frame: &[u8]) -> u8
    ensures { Unless result handle.old.value handle.new.value (λ h k. Hears result h frame.now k) }
{
    let held = mem::replace(handle, Handle::empty());
    match held.into_box(alloc) {
        None => NO_REPLICA,
        Some(mut hosted) => {
            let status = hear_status(alloc, &mut hosted, frame);
            *handle = Handle::of(hosted);
            status
        }
    }
}

/// The replica stops waiting for its whole fast quorum in an instance that it leads: it goes on by the slow path. EP_NO_REPLICA, EP_LENT, EP_MEMORY; EP_OUT_OF_RANGE:
/// there is no such instance; EP_NOT_LEADING; EP_TOO_FEW_ANSWERS; EP_STAMP_FULL.
#[unsafe(no_mangle)]
pub extern "C" fn ep_give_up(alloc: Global, handle: &mut Handle, instance: Instance) -> u8
    ensures { Acts result handle.old.value instance (GiveUp (instance_in instance)) handle.new.value }
{
    match instance_in(instance) {
        None => OUT_OF_RANGE,
        Some(instance) => take(alloc, handle, Event::GiveUp(instance)),
    }
}

/// The replica stops waiting for the one that leads the instance, and takes it over. EP_NO_REPLICA, EP_LENT, EP_MEMORY; EP_OUT_OF_RANGE: there is no such instance;
/// EP_ALREADY_COMMITTED; EP_BALLOTS_EXHAUSTED; EP_STAMP_FULL.
#[unsafe(no_mangle)]
pub extern "C" fn ep_recover(alloc: Global, handle: &mut Handle, instance: Instance) -> u8
    ensures { Acts result handle.old.value instance (Recover (instance_in instance)) handle.new.value }
{
    match instance_in(instance) {
        None => OUT_OF_RANGE,
        Some(instance) => take(alloc, handle, Event::Recover(instance)),
    }
}

/// The replica executes its own instances that are ready.
fn advances(hosted: &mut Hosted) -> u8
    ensures { Advances result hosted.old hosted.new }
{
    match hosted.advance() {
        Ok(()) => DONE,
        Err(fault) => taking_status(fault),
    }
}

/// Executes all instances that the replica leads and that are ready, in rising order, each with all that it waits for, until none is. EP_NO_REPLICA; EP_LENT; EP_MEMORY
/// and EP_STAMP_FULL: some may have been executed, and the next call goes on.
#[unsafe(no_mangle)]
pub extern "C" fn ep_advance(alloc: Global, handle: &mut Handle) -> u8
    ensures { Unless result handle.old.value handle.new.value (λ h k. Advances result h k) }
{
    let held = mem::replace(handle, Handle::empty());
    match held.into_box(alloc) {
        None => NO_REPLICA,
        Some(mut hosted) => {
            let status = advances(&mut hosted);
            *handle = Handle::of(hosted);
            status
        }
    }
}

/// The replica executes all instances that are ready.
fn sweep_status(hosted: &mut Hosted) -> u8
    ensures { Sweeps result hosted.old hosted.new }
{
    match hosted.execute_all() {
        Ok(()) => DONE,
        Err(fault) => taking_status(fault),
    }
}

/// Executes all instances that are ready, whoever leads them: before a local read, or if a machine of your own is to keep up. EP_NO_REPLICA; EP_LENT; EP_MEMORY: some
/// may have been executed, and the next call goes on.
#[unsafe(no_mangle)]
pub extern "C" fn ep_execute_all(alloc: Global, handle: &mut Handle) -> u8
    ensures { Unless result handle.old.value handle.new.value (λ h k. Sweeps result h k) }
{
    let held = mem::replace(handle, Handle::empty());
    match held.into_box(alloc) {
        None => NO_REPLICA,
        Some(mut hosted) => {
            let status = sweep_status(&mut hosted);
            *handle = Handle::of(hosted);
            status
        }
    }
}
