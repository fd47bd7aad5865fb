//! What hosts carry.

ghost use Rattle.std.specs.Prelude.{◌≡◌, ◌↔◌, true, IfSome};
ghost use Rattle.ep_frame.specs.Meaning.{version_at};
ghost use Rattle.ep_host.specs.HostFrames.{IsHostFrame, IsOnly, NoneForVersion};

use ep_base::Version;
use ep_frame::{Frame, Origin};
use std::alloc::AllocError;
use std::marker::Model;

/// A frame of version 2 or of a generation, as replicas are. What is in a ring or an inbox, or is held, is such a frame by its type.
#[derive(Drop)]
pub struct HostFrame {
    frame: Frame,
}

impl Model for HostFrame {
    ghost use Rattle.std.specs.Prelude.{List, ℕ};
    ghost use Rattle.ep_host.specs.HostFrames.{IsHostFrame};

    ghost Value = { List ℕ };

    ghost view = { λ h. h.frame };

    ghost invariant = { λ h. IsHostFrame h.frame };
}

impl HostFrame {
    ghost use Rattle.std.specs.Prelude.{◌≡◌, IfOk};
    ghost use Rattle.ep_frame.specs.Meaning.{origin_at};
    ghost use Rattle.ep_host.specs.HostFrames.{IsHostFrame};

    /// The frame.
    pub fn new(frame: Frame) -> HostFrame
        requires { IsHostFrame frame }
        ensures { result ≡ frame }
    {
        HostFrame { frame }
    }

    /// The frame once more, whose bytes are shared and not copied.
    pub fn copied(frame: &Frame) -> Result<HostFrame, AllocError>
        requires { IsHostFrame frame.now }
        ensures { IfOk result (λ copy. copy ≡ frame.now) }
    {
        let frame = frame.clone()?;
        Ok(HostFrame { frame })
    }

    /// The same once more.
    pub fn copy(&self) -> Result<HostFrame, AllocError>
        ensures { IfOk result (λ copy. copy ≡ self.now) }
    {
        HostFrame::copied(&self.frame)
    }

    /// Where the frame goes, and which one it is.
    pub fn origin(&self) -> Origin
        ensures { result ≡ origin_at self.now }
    {
        self.frame.origin()
    }

    /// The frame alone.
    pub fn into_frame(self) -> Frame
        ensures value { result ≡ self }
        ensures version { IsHostFrame result }
    {
        self.frame
    }
}

/// The frame alone, if there is one.
pub fn frame_in(given: Option<HostFrame>) -> Option<Frame>
    ensures value { result ≡ given }
    ensures version { IfSome result IsHostFrame }
{
    match given {
        Some(frame) => Some(frame.into_frame()),
        None => None,
    }
}

/// Whether the frame is of this version.
fn is_of(version: Version, frame: &Frame) -> bool
    ensures { (result ≡ true) ↔ (version_at frame.now ≡ version) }
{
    frame.version() == version
}

/// The frame, if there is one and it is of this version.
pub fn only_of(version: Version, given: Option<Frame>) -> Option<Frame>
    ensures { IsOnly version given result }
{
    match given {
        Some(frame) => {
            if is_of(version, &frame) {
                Some(frame)
            } else {
                drop(frame);
                None
            }
        }
        None => None,
    }
}

/// No replica refuses a frame of its own version for its version or generation: a law, which costs nothing.
pub fn none_is_refused_for_its_version()
    ensures { NoneForVersion }
{}
