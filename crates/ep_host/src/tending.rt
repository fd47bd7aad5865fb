//! One pump's work under a replica's lock. It waits for nobody.

ghost use Rattle.std.specs.Prelude.{◌≡◌};
ghost use Rattle.ep_host.specs.HostFrames.{AreHostFrames, AreOfVersion};
ghost use Rattle.ep_host.specs.Tending.{lost_by, Handles, Tends};

use crate::frames_out::{FramesOut, nothing, sent_last};
use crate::tended::Tended;
use ep_frame::Frame;
use ep_journal::{Event, StepFault};
use ep_replica::Replica;
use std::alloc::Global;

/// How many frames are lost by a frame's refusal: the frame itself, where there was no memory for it.
pub fn lost_by(fault: &StepFault) -> u64
    ensures { result ≡ lost_by fault.now }
{
    match fault {
        StepFault::Memory => 1,
        _ => 0,
    }
}

/// The frame is handled, if there is one; what its entry sends is to be sent.
fn handle(alloc: Global, replica: &mut Replica, frame: Option<Frame>) -> FramesOut
    ensures handles { Handles frame replica.old result.frames.items result.lost replica.new }
    ensures version { AreHostFrames result.frames.items }
    ensures same { AreOfVersion replica.old.version result.frames.items }
{
    let Some(frame) = frame else {
        return nothing(alloc, 0);
    };
    match replica.take(Event::Handle(frame)) {
        Ok(()) => sent_last(alloc, replica),
        Err(fault) => nothing(alloc, lost_by(&fault)),
    }
}

/// Handles the frame, if there is one, and then executes the next ready instance of the replica's own, if there is one.
///
/// A frame that is refused is dropped, and is lost where it was refused when out of memory. The frames to be sent are of the replica's version.
pub fn tend(alloc: Global, replica: &mut Replica, frame: Option<Frame>) -> Tended
    ensures tends { Tends frame replica.old replica.new result }
    ensures version { AreHostFrames result.frames.items }
    ensures same { AreOfVersion replica.old.version result.frames.items }
{
    let given = frame.is_some();
    let FramesOut { frames, lost } = handle(alloc, replica, frame);
    let executed = replica.execute_next();
    Tended {
        moved: given || executed,
        frames,
        lost,
    }
}
