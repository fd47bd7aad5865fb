//! A replica's life.

ghost use Rattle.std.specs.Prelude.{◌≡◌, ◌↔◌, None, IsTrue};
ghost use Rattle.ep_library.specs.Arguments.{given, log_given};
ghost use Rattle.ep_library.specs.Calls.{Unless};
ghost use Rattle.ep_library.specs.Opening.{Begins, IsSpare, Opens, OpensNew, Seats, ReportsCut};

use crate::codes::start_status;
use crate::making::{given, log_given, seat_of};
use crate::place::Place;
use crate::refusals::start_place;
use crate::setup::Setup;
use crate::status::{DONE, HAS_REPLICA, LOG_EXISTS, MEMORY, NO_REPLICA, NONE, OUT_OF_RANGE};
use ep_embedded::{Hosted, Seat, StartFault};
use ep_handle::Handle;
use ep_node::Cut;
use std::alloc::Global;
use std::mem;

/// The replica at this place in a cluster, by the bytes that are given.
fn begin(alloc: Global, seat: Seat, setup: &Setup<'_>) -> Result<Hosted, StartFault>
    ensures { Begins seat (given setup.now.opening.now) (log_given setup.now.is_new setup.now.log.now) result }
{
    let opening = given(alloc, setup.opening)?;
    let log = log_given(alloc, setup.is_new, setup.log)?;
    Hosted::open(alloc, seat, opening, log)
}

/// Whether a log is given to a new replica.
fn is_spare(setup: &Setup<'_>) -> bool
    ensures { IsTrue result ↔ IsSpare setup.now }
{
    setup.is_new != 0 && !setup.log.is_empty()
}

/// Puts the replica, if one was begun, behind the handle; else says why none was.
pub(crate) fn seat(
    alloc: Global,
    handle: &mut Handle,
    begun: Result<Hosted, StartFault>,
    place: &mut Place,
) -> u8
    requires { handle.old.value ≡ None }
    ensures { Seats result begun place.old handle.new.value place.new }
{
    match begun {
        Ok(hosted) => match Box::new(alloc, hosted) {
            Ok(hosted) => {
                *handle = Handle::of(hosted);
                DONE
            }
            Err(_) => MEMORY,
        },
        Err(fault) => {
            *place = start_place(fault);
            start_status(fault)
        }
    }
}

/// Opens a replica, if there is none.
fn open_new(alloc: Global, handle: &mut Handle, setup: &Setup<'_>, place: &mut Place) -> u8
    requires { handle.old.value ≡ None }
    ensures { OpensNew result setup.now place.old handle.new.value place.new }
{
    let Some(own) = seat_of(setup.replicas, setup.replica) else {
        return OUT_OF_RANGE;
    };
    if is_spare(setup) {
        return LOG_EXISTS;
    }
    let begun = begin(alloc, own, setup);
    seat(alloc, handle, begun, place)
}

/// Opens a replica, if there is none, of version 2 or of a generation: a new one, or one that goes on from its log. The first thing to do then is `ep_ready`, which lends the whole
/// log, written anew; nothing is taken or reported before that is on the disk. `ep_free` ends it. EP_HAS_REPLICA, EP_MEMORY; EP_OUT_OF_RANGE: `replicas` isn't 3, 5 or 7, or `replica` isn't
/// below it; and each status from EP_NO_LOG on, by which the log or the opening is refused: `place` becomes the numbers that the status names.
#[unsafe(no_mangle)]
pub extern "C" fn ep_open(
    alloc: Global,
    handle: &mut Handle,
    setup: &Setup<'_>,
    place: &mut Place,
) -> u8
    ensures { Opens result handle.old.value setup.now place.old handle.new.value place.new }
{
    let held = mem::replace(handle, Handle::empty());
    match held.into_box(alloc) {
        Some(hosted) => {
            *handle = Handle::of(hosted);
            HAS_REPLICA
        }
        None => open_new(alloc, handle, setup, place),
    }
}

/// Says what was cut off, if anything.
fn show_cut(cut: Option<Cut>, place: &mut Place) -> u8
    ensures { ReportsCut result cut place.old place.new }
{
    match cut {
        Some(cut) => {
            *place = Place {
                at: cut.at as u64,
                by: cut.behind as u64,
            };
            DONE
        }
        None => NONE,
    }
}

/// Says what was cut off the log's end as the replica was opened, if a crash had left bytes that are no whole record: from byte `at` on, `by` bytes. Pass it on to whoever
/// runs the replica. EP_NO_REPLICA; EP_NONE: nothing was cut off.
#[unsafe(no_mangle)]
pub extern "C" fn ep_cut(alloc: Global, handle: &mut Handle, place: &mut Place) -> u8
    ensures { Unless result handle.old.value handle.new.value (λ h k. ReportsCut result h.node.cut place.old place.new × (k ≡ h)) }
{
    let held = mem::replace(handle, Handle::empty());
    match held.into_box(alloc) {
        None => NO_REPLICA,
        Some(hosted) => {
            let status = show_cut(hosted.cut(), place);
            *handle = Handle::of(hosted);
            status
        }
    }
}

/// Ends the replica, if there is one. Its log is as what was said to be on the disk; `ep_open` goes on from there. EP_DONE.
#[unsafe(no_mangle)]
pub extern "C" fn ep_free(alloc: Global, handle: &mut Handle) -> u8
    ensures ended { handle.new.value ≡ None }
    ensures status { result ≡ 0 }
{
    let held = mem::replace(handle, Handle::empty());
    let _hosted = held.into_box(alloc);
    DONE
}
