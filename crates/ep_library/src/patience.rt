//! When to give up, and when to recover.

ghost use Rattle.std.specs.Prelude.{◌≡◌, ◌≢◌, ◌↔◌, None, IfSome, IsNone};
ghost use Rattle.ep_library.specs.Arguments.{instance_in, is_said};
ghost use Rattle.ep_library.specs.Patience.{BeginsPatience, Dues, Hurries, IsBegun, Measures, Puts, PutsOff, Reaches, Seats, Turns, WithInstance, WithPatience, WithPeer, HasPlace};

use crate::instance::Instance;
use crate::lent::Lent;
use crate::making::{instance_in, seat_of};
use crate::status::{DONE, HAS_PATIENCE, MEMORY, NO_PATIENCE, NONE, OUT_OF_RANGE};
use crate::syncing::point;
use crate::waits::Waits;
use ep_base::{InstanceId, ReplicaId};
use ep_handle::PatienceHandle;
use ep_patience::{HostedPatience, Patience, TurnFault, Waits as Spans};
use std::alloc::Global;
use std::mem;

/// That of this replica, which waits so long, if there is such a replica.
fn make(alloc: Global, waits: &Waits) -> Option<HostedPatience>
    ensures some { IfSome result (λ h. IsBegun waits.now h) }
    ensures none { IsNone result ↔ ¬ HasPlace waits.now }
{
    if waits.replicas <= waits.replica {
        return None;
    }
    let seat = seat_of(waits.replicas, waits.replica)?;
    let spans = Spans {
        granularity: waits.granularity,
        initial: waits.initial,
        reported: waits.told,
        longest: waits.longest,
    };
    let patience = Patience::new(alloc, seat.cluster, seat.me, spans, waits.seed);
    Some(HostedPatience::new(alloc, patience))
}

/// Puts it behind the handle.
fn put_begun(alloc: Global, handle: &mut PatienceHandle, begun: HostedPatience) -> u8
    requires { handle.old.value ≡ None }
    ensures { Puts result begun handle.new.value }
{
    match Box::new(alloc, begun) {
        Ok(begun) => {
            *handle = PatienceHandle::of(begun);
            DONE
        }
        Err(_) => MEMORY,
    }
}

/// Begins it.
fn begin_new(alloc: Global, handle: &mut PatienceHandle, waits: &Waits) -> u8
    requires { handle.old.value ≡ None }
    ensures { Seats result waits.now handle.new.value }
{
    match make(alloc, waits) {
        None => OUT_OF_RANGE,
        Some(begun) => put_begun(alloc, handle, begun),
    }
}

/// Begins to say when a replica is to wait no longer, if nothing was begun: any answer is safe, and this one is wise by the time that peers take to
/// answer, which you report. All peers are taken to be reached, and nothing is waited for. Times are numbers of a clock of yours, which doesn't turn back; the
/// first is any. `ep_patience_free` ends it. EP_HAS_PATIENCE, EP_MEMORY; EP_OUT_OF_RANGE: `replicas` isn't 3, 5 or 7, or `replica` isn't below it.
#[unsafe(no_mangle)]
pub extern "C" fn ep_patience_begin(
    alloc: Global,
    patience: &mut PatienceHandle,
    waits: &Waits,
) -> u8
    ensures { BeginsPatience result patience.old.value waits.now patience.new.value }
{
    let held = mem::replace(patience, PatienceHandle::empty());
    match held.into_box(alloc) {
        Some(begun) => {
            *patience = PatienceHandle::of(begun);
            HAS_PATIENCE
        }
        None => begin_new(alloc, patience, waits),
    }
}

/// Ends it, if it was begun. EP_DONE.
#[unsafe(no_mangle)]
pub extern "C" fn ep_patience_free(alloc: Global, patience: &mut PatienceHandle) -> u8
    ensures ended { patience.new.value ≡ None }
    ensures status { result ≡ 0 }
{
    let held = mem::replace(patience, PatienceHandle::empty());
    let _begun = held.into_box(alloc);
    DONE
}

/// An answer of a peer to an own proposal took so long.
fn measures(begun: &mut HostedPatience, peer: ReplicaId, took: u32) -> u8
    ensures { Measures result begun.old peer took begun.new }
{
    begun.patience.measure(peer, took);
    DONE
}

/// Says that an answer of this peer to an own proposal (a frame PreAcceptOK) came so long after the proposal's frame was sent to it, which is after the sync. Not
/// where that frame was sent twice: it isn't known then which one is answered (Karn's rule). Of a peer that proposals spare, say now and then how long a message of
/// yours and its answer took: else nothing is known of it, and its time-out stays at `initial`. EP_NO_PATIENCE; EP_OUT_OF_RANGE: `peer` is above 6.
#[unsafe(no_mangle)]
pub extern "C" fn ep_patience_measure(
    alloc: Global,
    patience: &mut PatienceHandle,
    peer: u8,
    took: u32,
) -> u8
    ensures { WithPeer result patience.old.value peer patience.new.value (λ h k. Measures result h peer took k) }
{
    let Ok(peer) = ReplicaId::new(peer) else {
        return OUT_OF_RANGE;
    };
    let held = mem::replace(patience, PatienceHandle::empty());
    match held.into_box(alloc) {
        None => NO_PATIENCE,
        Some(mut begun) => {
            let status = measures(&mut begun, peer, took);
            *patience = PatienceHandle::of(begun);
            status
        }
    }
}

/// Frames to a peer arrive, or don't.
fn reaches(begun: &mut HostedPatience, peer: ReplicaId, is_reached: bool) -> u8
    ensures { Reaches result begun.old peer is_reached begun.new }
{
    begun.patience.set_reached(peer, is_reached);
    DONE
}

/// Says that frames to this peer arrive, as far as you know, or, if `is_reached` is 0, that they don't: its connection is lost. Where one is reached again, what was
/// asked for is hurried. EP_NO_PATIENCE; EP_OUT_OF_RANGE: `peer` is above 6.
#[unsafe(no_mangle)]
pub extern "C" fn ep_patience_reach(
    alloc: Global,
    patience: &mut PatienceHandle,
    peer: u8,
    is_reached: u8,
) -> u8
    ensures { WithPeer result patience.old.value peer patience.new.value (λ h k. Reaches result h peer (is_said is_reached) k) }
{
    let Ok(peer) = ReplicaId::new(peer) else {
        return OUT_OF_RANGE;
    };
    let held = mem::replace(patience, PatienceHandle::empty());
    match held.into_box(alloc) {
        None => NO_PATIENCE,
        Some(mut begun) => {
            let status = reaches(&mut begun, peer, is_reached != 0);
            *patience = PatienceHandle::of(begun);
            status
        }
    }
}

/// All that was asked for is hurried.
fn hurries(begun: &mut HostedPatience) -> u8
    ensures { Hurries result begun.old begun.new }
{
    begun.patience.hurry();
    DONE
}

/// Has the next turn wait no longer for what was asked for before than as if that had been asked for once: when a seal is committed, say, as it waits for all.
/// EP_NO_PATIENCE.
#[unsafe(no_mangle)]
pub extern "C" fn ep_patience_hurry(alloc: Global, patience: &mut PatienceHandle) -> u8
    ensures { WithPatience result patience.old.value patience.new.value (λ h k. Hurries result h k) }
{
    let held = mem::replace(patience, PatienceHandle::empty());
    match held.into_box(alloc) {
        None => NO_PATIENCE,
        Some(mut begun) => {
            let status = hurries(&mut begun);
            *patience = PatienceHandle::of(begun);
            status
        }
    }
}

/// An instance is put off.
fn puts_off(begun: &mut HostedPatience, instance: InstanceId, ballot: u16, now: u64) -> u8
    ensures { PutsOff result begun.old instance ballot now begun.new }
{
    begun.patience.put_off(instance, ballot, now);
    DONE
}

/// Says that somebody recovers this instance: a Prepare or an Accept of it was sent or handled here, at a ballot of this counter. Another recovery would be in its way,
/// so it is put off, if it is waited for. EP_NO_PATIENCE; EP_OUT_OF_RANGE: there is no such instance.
#[unsafe(no_mangle)]
pub extern "C" fn ep_patience_put_off(
    alloc: Global,
    patience: &mut PatienceHandle,
    instance: Instance,
    ballot: u16,
    now: u64,
) -> u8
    ensures { WithInstance result patience.old.value instance patience.new.value (λ h k. PutsOff result h (instance_in instance) ballot now k) }
{
    let Some(instance) = instance_in(instance) else {
        return OUT_OF_RANGE;
    };
    let held = mem::replace(patience, PatienceHandle::empty());
    match held.into_box(alloc) {
        None => NO_PATIENCE,
        Some(mut begun) => {
            let status = puts_off(&mut begun, instance, ballot, now);
            *patience = PatienceHandle::of(begun);
            status
        }
    }
}

/// A turn, and what is to be asked for at it.
fn turns(
    alloc: Global,
    begun: &mut HostedPatience,
    now: u64,
    instances: &[u8],
    late: &mut Lent,
) -> u8
    ensures reported { Turns result begun.old now instances.now begun.new late.new }
    ensures unreported { result ≢ 0 → late.new ≡ late.old }
{
    match begun.turn(alloc, now, instances) {
        Ok(()) => {
            point(&begun.reported, late);
            DONE
        }
        Err(TurnFault::Memory) => MEMORY,
        Err(TurnFault::NotOpen) => OUT_OF_RANGE,
    }
}

/// Has a turn at this time, at which just these instances are open, and lends what to ask the replica for. `instances` has ten bytes for each, in rising order: nine as the answer
/// of kind 9 has them (docs/FORMATS.md, section 10), and the replica that your proposal of it spares (the one just below you where it names none; of another's any); one that
/// isn't open here, and of which a peer says that it is committed, has the phase 4. `late` has four bytes for each of at
/// most 64 events: 3 (give up) or 4 (recover), and the instance, as in a request. EP_NO_PATIENCE, EP_MEMORY; EP_OUT_OF_RANGE: the bytes aren't open instances in rising order.
#[unsafe(no_mangle)]
pub extern "C" fn ep_patience_turn(
    alloc: Global,
    patience: &mut PatienceHandle,
    now: u64,
    instances: &[u8],
    late: &mut Lent,
) -> u8
    ensures reported { WithPatience result patience.old.value patience.new.value (λ h k. Turns result h now instances.now k late.new) }
    ensures unreported { result ≢ 0 → late.new ≡ late.old }
{
    let held = mem::replace(patience, PatienceHandle::empty());
    match held.into_box(alloc) {
        None => NO_PATIENCE,
        Some(mut begun) => {
            let status = turns(alloc, &mut begun, now, instances, late);
            *patience = PatienceHandle::of(begun);
            status
        }
    }
}

/// When the next turn is due.
fn dues(begun: &HostedPatience, due: &mut u64) -> u8
    ensures { Dues result begun.now due.old due.new }
{
    match begun.patience.next_due() {
        Some(next) => {
            *due = next;
            DONE
        }
        None => NONE,
    }
}

/// Says when to have the next turn at the latest, if no instance is opened before. EP_NO_PATIENCE; EP_NONE: nothing is waited for, or too few peers are reached.
#[unsafe(no_mangle)]
pub extern "C" fn ep_patience_due(alloc: Global, patience: &mut PatienceHandle, due: &mut u64) -> u8
    ensures reported { WithPatience result patience.old.value patience.new.value (λ h k. Dues result h due.old due.new × (k ≡ h)) }
    ensures unreported { result ≢ 0 → due.new ≡ due.old }
{
    let held = mem::replace(patience, PatienceHandle::empty());
    match held.into_box(alloc) {
        None => NO_PATIENCE,
        Some(begun) => {
            let status = dues(&begun, due);
            *patience = PatienceHandle::of(begun);
            status
        }
    }
}
