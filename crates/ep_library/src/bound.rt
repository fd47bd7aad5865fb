//! A replica whose log names a reference.

ghost use Rattle.std.specs.Prelude.{◌≡◌, None};
ghost use Rattle.ep_library.specs.Arguments.{log_given};
ghost use Rattle.ep_library.specs.Bound.{BeginsBound, OpensBound, OpensNewBound};

use crate::life::seat;
use crate::making::log_given;
use crate::place::Place;
use crate::status::{HAS_REPLICA, LOG_EXISTS, OUT_OF_RANGE};
use crate::succeeding::{heir_of, is_spare};
use crate::succession::Succession;
use ep_embedded::{Heir, Hosted, StartFault};
use ep_handle::Handle;
use std::alloc::Global;
use std::mem;

/// The replica of this heir, by the bytes that are given.
fn begin_bound(
    alloc: Global,
    heir: &Heir,
    opening: &[u8],
    succession: &Succession<'_>,
) -> Result<Hosted, StartFault>
    ensures { BeginsBound heir.now opening.now (log_given succession.now.is_new succession.now.log.now) result }
{
    let opening = Vec::from_slice(alloc, opening)?;
    let log = log_given(alloc, succession.is_new, succession.log)?;
    Hosted::open_bound(alloc, heir, opening, log)
}

/// Opens a replica, if there is none.
fn open_new_bound(
    alloc: Global,
    handle: &mut Handle,
    opening: &[u8],
    succession: &Succession<'_>,
    place: &mut Place,
) -> u8
    requires { handle.old.value ≡ None }
    ensures { OpensNewBound result opening.now succession.now place.old handle.new.value place.new }
{
    let Some(heir) = heir_of(succession) else {
        return OUT_OF_RANGE;
    };
    if is_spare(succession) {
        return LOG_EXISTS;
    }
    let begun = begin_bound(alloc, &heir, opening, succession);
    seat(alloc, handle, begun, place)
}

/// Opens a replica as ep_open does, of a generation that was begun by a reference, once its opening file was written: its log names the reference's digest, and that is what
/// `succession` has. Only the binding on the disk says that the file is the one for which the reference stood: look there before. EP_HAS_REPLICA, EP_MEMORY; EP_OUT_OF_RANGE: `digest`
/// hasn't 32 bytes, `replicas` isn't 3, 5 or 7, or `replica` isn't below it; and each status from EP_NO_LOG on, as ep_open has them.
#[unsafe(no_mangle)]
pub extern "C" fn ep_open_bound(
    alloc: Global,
    handle: &mut Handle,
    opening: &[u8],
    succession: &Succession<'_>,
    place: &mut Place,
) -> u8
    ensures { OpensBound result handle.old.value opening.now succession.now place.old handle.new.value place.new }
{
    let held = mem::replace(handle, Handle::empty());
    match held.into_box(alloc) {
        Some(hosted) => {
            *handle = Handle::of(hosted);
            HAS_REPLICA
        }
        None => open_new_bound(alloc, handle, opening, succession, place),
    }
}
