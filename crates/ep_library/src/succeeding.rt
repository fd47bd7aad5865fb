//! The next generation in the place of the one before.

ghost use Rattle.std.specs.Prelude.{◌≡◌, ◌≢◌, ◌↔◌, None, IfSome, IsNone, IsTrue, length};
ghost use Rattle.ep_library.specs.Arguments.{log_given};
ghost use Rattle.ep_library.specs.Succeeding.{Binds, Follows, Gives, GoesOn, HasHeir, HasLog, IsHeir, IsLogNamed, IsSpareLog, Keeps, KeepsBoth, NamesLog, Succeeds, WithCheckpoint};

use crate::closed_log::ClosedLog;
use crate::codes::succeed_status;
use crate::copying::copy_out;
use crate::lent::Lent;
use crate::making::{log_given, seat_of};
use crate::place::Place;
use crate::refusals::succeed_place;
use crate::status::{
    DONE, HAS_CHECKPOINT, LOG_EXISTS, MEMORY, NO_CHECKPOINT, NO_REPLICA, NONE, OUT_OF_RANGE,
    TOO_SHORT,
};
use crate::succession::Succession;
use crate::syncing::point;
use ep_base::{Generation, Size};
use ep_embedded::{Heir, Hosted, HostedCheckpoint, SucceedFault};
use ep_handle::{CheckpointHandle, Handle};
use ep_opening::{Checkpoint, OpeningFile, OpeningReference, write_binding, write_reference};
use std::alloc::Global;
use std::mem;

/// The 32 bytes of a digest.
fn digest_of(bytes: &[u8]) -> Option<[u8; 32]>
    ensures some { IfSome result (λ digest. digest ≡ bytes.now) }
    ensures none { IsNone result → length bytes.now ≢ 32 }
{
    if bytes.len() != 32 {
        return None;
    }
    let mut digest = [0; 32];
    digest.copy_from_slice(bytes);
    Some(digest)
}

/// Who goes on, if it is one of a cluster, and has a digest.
pub(crate) fn heir_of(succession: &Succession<'_>) -> Option<Heir>
    ensures some { IfSome result (IsHeir succession.now) }
    ensures none { IsNone result → ¬ HasHeir succession.now }
{
    let digest = digest_of(succession.digest)?;
    let seat = seat_of(succession.replicas, succession.replica)?;
    Some(Heir {
        cluster: seat.cluster,
        me: seat.me,
        digest,
    })
}

/// Whether a log is given to a new replica.
pub(crate) fn is_spare(succession: &Succession<'_>) -> bool
    ensures { IsTrue result ↔ IsSpareLog succession.now }
{
    succession.is_new != 0 && !succession.log.is_empty()
}

/// The reference to this log, if there is one.
fn reference_of(closed: &ClosedLog<'_>) -> Option<OpeningReference>
    ensures some { IfSome result (IsLogNamed closed.now) }
    ensures none { IsNone result → ¬ HasLog closed.now }
{
    let sum = digest_of(closed.sum)?;
    let size = Size::new(closed.replicas).ok()?;
    let generation = Generation::new(closed.generation).ok()?;
    let reference = OpeningReference::new(size, generation, closed.length, sum).ok()?;
    reference.is_one();
    Some(reference)
}

/// Copies the reference to a log whose generation is closed: what the generation after it opens with is what this log leaves. It has 82 bytes, of which the last 32 are its digest,
/// which ep_succeed has the next log name; `len` becomes how many it has. Have it on the disk before that log. EP_TOO_SHORT: nothing was copied; EP_MEMORY; EP_OUT_OF_RANGE:
/// `sum` hasn't 32 bytes, the length is less than that of a header, 43, the generation isn't from 2, or `replicas` isn't 3, 5 or 7.
#[unsafe(no_mangle)]
pub extern "C" fn ep_reference(
    alloc: Global,
    closed: &ClosedLog<'_>,
    out: &mut [u8],
    len: &mut usize,
) -> u8
    ensures { NamesLog result closed.now out.old len.old out.new len.new }
{
    let Some(reference) = reference_of(closed) else {
        return OUT_OF_RANGE;
    };
    match write_reference(alloc, &reference) {
        Ok(bytes) => {
            if copy_out(&bytes, out, len) {
                DONE
            } else {
                TOO_SHORT
            }
        }
        Err(_) => MEMORY,
    }
}

/// Copies what says that the opening file of this digest is the one for which the reference of that digest stood: have
/// it on the disk once the file is, and then the file is read in the reference's place. It has 69 bytes, and no others
/// say so; `len` becomes how many it has. EP_TOO_SHORT: nothing was copied; EP_MEMORY; EP_OUT_OF_RANGE: a digest hasn't
/// 32 bytes.
#[unsafe(no_mangle)]
pub extern "C" fn ep_binding(
    alloc: Global,
    reference: &[u8],
    opening: &[u8],
    out: &mut [u8],
    len: &mut usize,
) -> u8
    ensures { Binds result (reference.now, opening.now) out.old len.old out.new len.new }
{
    let Some(reference) = digest_of(reference) else {
        return OUT_OF_RANGE;
    };
    let Some(opening) = digest_of(opening) else {
        return OUT_OF_RANGE;
    };
    match write_binding(alloc, reference, opening) {
        Ok(bytes) => {
            if copy_out(&bytes, out, len) {
                DONE
            } else {
                TOO_SHORT
            }
        }
        Err(_) => MEMORY,
    }
}

/// Puts the file, in pieces, behind the handle.
fn keep_file(alloc: Global, checkpoint: &mut CheckpointHandle, file: OpeningFile) -> u8
    requires { checkpoint.old.value ≡ None }
    ensures { Keeps result file checkpoint.new.value }
{
    match Box::new(alloc, HostedCheckpoint::new(alloc, Checkpoint::new(file))) {
        Ok(begun) => {
            *checkpoint = CheckpointHandle::of(begun);
            DONE
        }
        Err(_) => MEMORY,
    }
}

/// Puts the node of the next generation behind the handle, and its file behind the other one.
fn keep_both(
    alloc: Global,
    handle: &mut Handle,
    checkpoint: &mut CheckpointHandle,
    next: (Hosted, OpeningFile),
) -> u8
    requires none { handle.old.value ≡ None }
    requires free { checkpoint.old.value ≡ None }
    ensures { KeepsBoth result next.0 next.1 handle.new.value checkpoint.new.value }
{
    let (hosted, file) = next;
    match Box::new(alloc, hosted) {
        Ok(hosted) => {
            *handle = Handle::of(hosted);
            keep_file(alloc, checkpoint, file)
        }
        Err(_) => {
            drop(file);
            MEMORY
        }
    }
}

/// The node of the next generation, by the log that is given.
fn next_of(
    alloc: Global,
    hosted: Hosted,
    heir: &Heir,
    succession: &Succession<'_>,
) -> Result<(Hosted, OpeningFile), SucceedFault>
    ensures { Follows hosted heir.now (log_given succession.now.is_new succession.now.log.now) result }
{
    match log_given(alloc, succession.is_new, succession.log) {
        Ok(log) => hosted.succeed(alloc, heir, log),
        Err(_) => {
            drop(hosted);
            Err(SucceedFault::Memory)
        }
    }
}

/// The replica goes on in the next generation, if it may; else why not, and where its log is refused.
fn succeeds(
    alloc: Global,
    handle: &mut Handle,
    checkpoint: &mut CheckpointHandle,
    hosted: Box<Hosted, Global>,
    succession: &Succession<'_>,
) -> (u8, Option<Place>)
    requires none { handle.old.value ≡ None }
    requires free { checkpoint.old.value ≡ None }
    ensures { Succeeds result.0 result.1 hosted.value succession.now handle.new.value checkpoint.new.value }
{
    let Some(heir) = heir_of(succession) else {
        *handle = Handle::of(hosted);
        return (OUT_OF_RANGE, None);
    };
    if is_spare(succession) {
        *handle = Handle::of(hosted);
        return (LOG_EXISTS, None);
    }
    if let Err(fault) = hosted.check_succeed(&heir) {
        *handle = Handle::of(hosted);
        return (succeed_status(fault), None);
    }
    match next_of(alloc, Box::into_inner(hosted), &heir, succession) {
        Ok(next) => (keep_both(alloc, handle, checkpoint, next), None),
        Err(fault) => (succeed_status(fault), succeed_place(fault)),
    }
}

/// Goes on in the next generation, once a seal was executed here, all is on the disk and nothing is lent: the replica
/// is then that of the next generation, new, with the map as it is, of which nothing is copied. What was asked and not
/// answered, prepared and not told, or taken and not told is dropped: call ep_answers, or ep_told, before. ep_ready
/// lends the header of its log, which names the digest. Behind `checkpoint` is then the file that it opened with, which
/// shares the map, and what is left of this generation: write it, and let the rest go (ep_checkpoint_rest), when there
/// is time. After a start the replica goes through the generations since the last whole opening by this call, with the
/// log of each. EP_NO_REPLICA, EP_UNSYNCED; EP_NOT_SEALED; EP_LAST_GENERATION; EP_HAS_CHECKPOINT; EP_LOG_EXISTS;
/// EP_OUT_OF_RANGE: `digest` hasn't 32 bytes, `replicas` isn't 3, 5 or 7, or `replica` isn't below it: all is as it
/// was. EP_MEMORY, and each other status from EP_NO_LOG on, by which the log is refused, where `place` becomes the
/// numbers that the status names: the replica, or the checkpoint, may be gone; what was said to be on the disk is
/// there, and ep_open goes on from it.
#[unsafe(no_mangle)]
pub extern "C" fn ep_succeed(
    alloc: Global,
    handle: &mut Handle,
    checkpoint: &mut CheckpointHandle,
    succession: &Succession<'_>,
    place: &mut Place,
) -> u8
    ensures { GoesOn result handle.old.value checkpoint.old.value succession.now place.old handle.new.value checkpoint.new.value place.new }
{
    let kept = mem::replace(checkpoint, CheckpointHandle::empty());
    if let Some(begun) = kept.into_box(alloc) {
        *checkpoint = CheckpointHandle::of(begun);
        return HAS_CHECKPOINT;
    }
    let held = mem::replace(handle, Handle::empty());
    match held.into_box(alloc) {
        None => NO_REPLICA,
        Some(hosted) => {
            let (status, reported) = succeeds(alloc, handle, checkpoint, hosted, succession);
            if let Some(reported) = reported {
                *place = reported;
            }
            status
        }
    }
}

/// The file gives its next bytes.
fn gives(alloc: Global, begun: &mut HostedCheckpoint, most: usize, piece: &mut Lent) -> u8
    ensures reported { Gives result most begun.old begun.new piece.new }
    ensures unreported { result ≢ 0 → piece.new ≡ piece.old }
{
    if begun.checkpoint.is_over() {
        return NONE;
    }
    match begun.give(alloc, most) {
        Ok(()) => {
            point(&begun.piece, piece);
            DONE
        }
        Err(_) => MEMORY,
    }
}

/// Lends the next bytes of the opening file: at most `most` of them, or 189,004 where that is more, since no field is cut. All pieces, one after the other, are the file; each has some
/// bytes, and the last one is its digest alone. They lie there until the next call with this checkpoint, which any thread may make, whatever the replica does. EP_NO_CHECKPOINT, EP_MEMORY; EP_NONE: all was given.
#[unsafe(no_mangle)]
pub extern "C" fn ep_checkpoint_next(
    alloc: Global,
    checkpoint: &mut CheckpointHandle,
    most: usize,
    piece: &mut Lent,
) -> u8
    ensures reported { WithCheckpoint result checkpoint.old.value checkpoint.new.value (λ h k. Gives result most h k piece.new) }
    ensures unreported { result ≢ 0 → piece.new ≡ piece.old }
{
    let held = mem::replace(checkpoint, CheckpointHandle::empty());
    match held.into_box(alloc) {
        None => NO_CHECKPOINT,
        Some(mut begun) => {
            let status = gives(alloc, &mut begun, most, piece);
            *checkpoint = CheckpointHandle::of(begun);
            status
        }
    }
}

/// Lets go what is left of the generation before, which goes with the checkpoint else: when there is time, and by any
/// thread, since that takes the longer the more the generation did. EP_DONE, also where nothing is left;
/// EP_NO_CHECKPOINT.
#[unsafe(no_mangle)]
pub extern "C" fn ep_checkpoint_rest(alloc: Global, checkpoint: &mut CheckpointHandle) -> u8
    ensures { WithCheckpoint result checkpoint.old.value checkpoint.new.value (λ h k. (result ≡ 0) × (k.checkpoint ≡ h.checkpoint)) }
{
    let held = mem::replace(checkpoint, CheckpointHandle::empty());
    match held.into_box(alloc) {
        None => NO_CHECKPOINT,
        Some(mut begun) => {
            begun.let_go();
            *checkpoint = CheckpointHandle::of(begun);
            DONE
        }
    }
}

/// Lets the file go, if it is there. EP_DONE.
#[unsafe(no_mangle)]
pub extern "C" fn ep_checkpoint_free(alloc: Global, checkpoint: &mut CheckpointHandle) -> u8
    ensures ended { checkpoint.new.value ≡ None }
    ensures status { result ≡ 0 }
{
    let held = mem::replace(checkpoint, CheckpointHandle::empty());
    let _begun = held.into_box(alloc);
    DONE
}
