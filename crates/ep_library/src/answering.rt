//! What a replica knows.

ghost use Rattle.std.specs.Prelude.{◌≡◌, ◌≢◌};
ghost use Rattle.ep_library.specs.Calls.{Unless};
ghost use Rattle.ep_library.specs.Answering.{phase_number, Closes, ClosesFor, Counts, AnswersLead, Lists, Looks, LooksAt, LooksOn, LooksUp, NextOpens, Shows, ShowsLead};

use crate::codes::{close_status, command_status, report_status};
use crate::instance::Instance;
use crate::leading::Leading;
use crate::lent::Lent;
use crate::making::{instance_in, instance_out};
use crate::status::{DONE, NO_REPLICA, NONE, OUT_OF_RANGE};
use crate::syncing::point;
use ep_base::{InstanceId, Key, ReplicaId, Size};
use ep_embedded::Hosted;
use ep_handle::Handle;
use ep_phase::LeadPhase;
use std::alloc::Global;
use std::mem;

/// What the replica's map has at the key.
fn looks(alloc: Global, hosted: &mut Hosted, key: &Key, value: &mut Lent) -> u8
    ensures reported { Looks result hosted.old key.now hosted.new value.new }
    ensures unreported { result ≢ 0 → value.new ≡ value.old }
{
    match hosted.look(alloc, key) {
        Ok(true) => {
            point(hosted.answers(), value);
            DONE
        }
        Ok(false) => NONE,
        Err(fault) => report_status(fault),
    }
}

/// The replica, if there is one, says what its map has at the key.
fn look_up(alloc: Global, handle: &mut Handle, key: &Key, value: &mut Lent) -> u8
    ensures reported { Unless result handle.old.value handle.new.value (λ h k. Looks result h key.now k value.new) }
    ensures unreported { result ≢ 0 → value.new ≡ value.old }
{
    let held = mem::replace(handle, Handle::empty());
    match held.into_box(alloc) {
        None => NO_REPLICA,
        Some(mut hosted) => {
            let status = looks(alloc, &mut hosted, key, value);
            *handle = Handle::of(hosted);
            status
        }
    }
}

/// Lends the value that the replica's own map has at the key, after all that it executed: a local read, which may be old. EP_NO_REPLICA, EP_UNSYNCED, EP_MEMORY; EP_NONE: the
/// map has none; EP_OUT_OF_RANGE: the key hasn't 1 to 255 bytes.
#[unsafe(no_mangle)]
pub extern "C" fn ep_get(alloc: Global, handle: &mut Handle, key: &[u8], value: &mut Lent) -> u8
    ensures reported { LooksUp result handle.old.value key.now handle.new.value value.new }
    ensures unreported { result ≢ 0 → value.new ≡ value.old }
{
    match Key::new(alloc, key) {
        Ok(key) => look_up(alloc, handle, &key, value),
        Err(fault) => command_status(fault),
    }
}

/// What the replica's map has, whole.
fn lists(alloc: Global, hosted: &mut Hosted, contents: &mut Lent) -> u8
    ensures reported { Lists result hosted.old hosted.new contents.new }
    ensures unreported { result ≢ 0 → contents.new ≡ contents.old }
{
    match hosted.list(alloc) {
        Ok(()) => {
            point(hosted.answers(), contents);
            DONE
        }
        Err(fault) => report_status(fault),
    }
}

/// Lends what all keys of the replica's own map have, after all that it executed: a local read, which may be old. First how many keys have a value (4 bytes), and then, in rising
/// order of keys, each with the length of the key (1), that of the value (4), the key and the value. EP_NO_REPLICA, EP_UNSYNCED, EP_MEMORY.
#[unsafe(no_mangle)]
pub extern "C" fn ep_contents(alloc: Global, handle: &mut Handle, contents: &mut Lent) -> u8
    ensures reported { Unless result handle.old.value handle.new.value (λ h k. Lists result h k contents.new) }
    ensures unreported { result ≢ 0 → contents.new ≡ contents.old }
{
    let held = mem::replace(handle, Handle::empty());
    match held.into_box(alloc) {
        None => NO_REPLICA,
        Some(mut hosted) => {
            let status = lists(alloc, &mut hosted, contents);
            *handle = Handle::of(hosted);
            status
        }
    }
}

/// Says how many entries of a peer the replica knows of, by its log: the greatest number among the entries whose frames it has handled; 0 if it has handled none. A peer whose log
/// has fewer has lost what it promised, or was put back to an older copy, and must not go on. EP_NO_REPLICA; EP_OUT_OF_RANGE: there is no such replica.
#[unsafe(no_mangle)]
pub extern "C" fn ep_handled(alloc: Global, handle: &mut Handle, peer: u8, entries: &mut u32) -> u8
    ensures reported { Counts result handle.old.value peer entries.old handle.new.value entries.new }
    ensures unreported { result ≢ 0 → entries.new ≡ entries.old }
{
    let Ok(peer) = ReplicaId::new(peer) else {
        return OUT_OF_RANGE;
    };
    let held = mem::replace(handle, Handle::empty());
    match held.into_box(alloc) {
        None => NO_REPLICA,
        Some(hosted) => {
            *entries = hosted.handled(peer);
            *handle = Handle::of(hosted);
            DONE
        }
    }
}

/// Reports an instance, if there is one.
fn show(found: Option<InstanceId>, reported: &mut Instance) -> u8
    ensures { Shows result found reported.old reported.new }
{
    match found {
        Some(instance) => {
            *reported = instance_out(instance);
            DONE
        }
        None => NONE,
    }
}

/// The replica reports the least open instance above this one.
fn next_opens(hosted: &Hosted, above: Option<InstanceId>, reported: &mut Instance) -> u8
    ensures { NextOpens result hosted.now above reported.old reported.new }
{
    match hosted.next_open(above) {
        Ok(found) => show(found, reported),
        Err(fault) => report_status(fault),
    }
}

/// The replica, if there is one, reports the least open instance above this one.
fn next_open(
    alloc: Global,
    handle: &mut Handle,
    above: Option<InstanceId>,
    reported: &mut Instance,
) -> u8
    ensures reported { Unless result handle.old.value handle.new.value (λ h k. NextOpens result h above reported.old reported.new × (k ≡ h)) }
    ensures unreported { result ≢ 0 → reported.new ≡ reported.old }
{
    let held = mem::replace(handle, Handle::empty());
    match held.into_box(alloc) {
        None => NO_REPLICA,
        Some(hosted) => {
            let status = next_opens(&hosted, above, reported);
            *handle = Handle::of(hosted);
            status
        }
    }
}

/// Reports the least instance that the replica knows of and hasn't committed, above this one, or, if its number is 0, of all. EP_NO_REPLICA, EP_UNSYNCED; EP_NONE: there is
/// none; EP_OUT_OF_RANGE: there is no such instance.
#[unsafe(no_mangle)]
pub extern "C" fn ep_next_open(
    alloc: Global,
    handle: &mut Handle,
    above: Instance,
    instance: &mut Instance,
) -> u8
    ensures reported { LooksOn result handle.old.value above instance.old handle.new.value instance.new }
    ensures unreported { result ≢ 0 → instance.new ≡ instance.old }
{
    if above.number == 0 {
        return next_open(alloc, handle, None, instance);
    }
    match instance_in(above) {
        Some(above) => next_open(alloc, handle, Some(above), instance),
        None => OUT_OF_RANGE,
    }
}

/// The phase's number.
fn phase_number(phase: LeadPhase) -> u8
    ensures { result ≡ phase_number phase }
{
    match phase {
        LeadPhase::Proposing => 1,
        LeadPhase::Accepting => 2,
        LeadPhase::Preparing => 3,
    }
}

/// Says how far an instance is led, if it is.
fn show_lead(found: Option<(LeadPhase, u8)>, reported: &mut Leading) -> u8
    ensures { ShowsLead result found reported.old reported.new }
{
    match found {
        Some((phase, answers)) => {
            *reported = Leading {
                phase: phase_number(phase),
                answers,
            };
            DONE
        }
        None => NONE,
    }
}

/// The replica says how far it leads the instance.
fn leads(hosted: &Hosted, instance: InstanceId, reported: &mut Leading) -> u8
    ensures { AnswersLead result hosted.now instance reported.old reported.new }
{
    match hosted.leads(instance) {
        Ok(found) => show_lead(found, reported),
        Err(fault) => report_status(fault),
    }
}

/// Says how far the replica leads the instance. EP_NO_REPLICA, EP_UNSYNCED; EP_NONE: it doesn't lead it; EP_OUT_OF_RANGE: there is no such instance.
#[unsafe(no_mangle)]
pub extern "C" fn ep_leads(
    alloc: Global,
    handle: &mut Handle,
    instance: Instance,
    leading: &mut Leading,
) -> u8
    ensures reported { LooksAt result handle.old.value instance leading.old handle.new.value leading.new }
    ensures unreported { result ≢ 0 → leading.new ≡ leading.old }
{
    let Some(instance) = instance_in(instance) else {
        return OUT_OF_RANGE;
    };
    let held = mem::replace(handle, Handle::empty());
    match held.into_box(alloc) {
        None => NO_REPLICA,
        Some(hosted) => {
            let status = leads(&hosted, instance, leading);
            *handle = Handle::of(hosted);
            status
        }
    }
}

/// The replica reports the opening of the next generation.
fn closes(alloc: Global, hosted: &mut Hosted, next: Size, opening: &mut Lent) -> u8
    ensures reported { Closes result hosted.old next hosted.new opening.new }
    ensures unreported { result ≢ 0 → opening.new ≡ opening.old }
{
    match hosted.closing(alloc, next) {
        Ok(()) => {
            point(hosted.answers(), opening);
            DONE
        }
        Err(fault) => close_status(fault),
    }
}

/// Lends the file that the next generation opens with, in a cluster of this many replicas, once a seal was executed here. The replica goes on, and those that lag may still
/// need it. EP_NO_REPLICA, EP_UNSYNCED, EP_MEMORY; EP_NOT_SEALED; EP_LAST_GENERATION; EP_OUT_OF_RANGE: a cluster has 3, 5 or 7 replicas.
#[unsafe(no_mangle)]
pub extern "C" fn ep_close(
    alloc: Global,
    handle: &mut Handle,
    replicas: u8,
    opening: &mut Lent,
) -> u8
    ensures reported { ClosesFor result handle.old.value replicas handle.new.value opening.new }
    ensures unreported { result ≢ 0 → opening.new ≡ opening.old }
{
    let Ok(next) = Size::new(replicas) else {
        return OUT_OF_RANGE;
    };
    let held = mem::replace(handle, Handle::empty());
    match held.into_box(alloc) {
        None => NO_REPLICA,
        Some(mut hosted) => {
            let status = closes(alloc, &mut hosted, next, opening);
            *handle = Handle::of(hosted);
            status
        }
    }
}
