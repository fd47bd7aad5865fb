//! Frames to be sent.

ghost use Rattle.std.specs.Prelude.{◌≡◌, ◌+◌, ◌∷◌, ◌++◌, [], List, IsTrue, IsFalse};
ghost use Rattle.ep_journal.specs.declared.entry.Entry.{Entry as Written};
ghost use Rattle.ep_host.specs.HostFrames.{AreHostFrames, AreOfVersion};
ghost use Rattle.ep_host.specs.Sent.{IsCopied};

use ep_frame::Frame;
use ep_replica::Replica;
use std::alloc::Global;

/// Frames to be sent, and how many were lost when out of memory.
#[derive(Drop)]
pub struct FramesOut {
    pub frames: Vec<Frame>,
    pub lost: u64,
}

/// No frames, with so many lost.
pub fn nothing(alloc: Global, lost: u64) -> FramesOut
    ensures frames { result.frames.items ≡ [] }
    ensures lost { result.lost ≡ lost }
{
    FramesOut {
        frames: Vec::new(alloc),
        lost,
    }
}

/// Adds the frame, where there is memory.
fn add(frames: &mut Vec<Frame>, frame: &Frame) -> bool
    ensures added { IsTrue result → frames.new.items ≡ frames.old.items ++ frame.now ∷ [] }
    ensures lost { IsFalse result → frames.new.items ≡ frames.old.items }
{
    match frame.clone() {
        Ok(frame) => frames.push(frame).is_ok(),
        Err(_) => false,
    }
}

/// The frames once more, in order, and how many of them were lost.
fn copied(alloc: Global, out: &[Frame]) -> FramesOut
    requires { AreHostFrames out.now }
    ensures copied { IsCopied out.now result.frames.items result.lost }
    ensures version { AreHostFrames result.frames.items }
{
    let mut frames = Vec::new(alloc);
    let mut lost = 0u64;
    for frame in out {
        if !add(&mut frames, frame) {
            lost += 1;
        }
    }
    FramesOut { frames, lost }
}

/// The frames that the replica's last entry sends.
pub fn sent_last(alloc: Global, replica: &Replica) -> FramesOut
    ensures copied { (before : List Written) (e : Written) → replica.now.entries ≡ before ++ e ∷ [] → IsCopied e.frames result.frames.items result.lost }
    ensures version { AreHostFrames result.frames.items }
    ensures same { AreOfVersion replica.now.version result.frames.items }
{
    match replica.journal().entries().last() {
        Some(entry) => copied(alloc, entry.frames.as_slice()),
        None => nothing(alloc, 0),
    }
}
