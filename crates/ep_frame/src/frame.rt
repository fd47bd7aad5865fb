//! Frames that are known to be frames.

ghost use Rattle.std.specs.Prelude.{◌≡◌, ◌≢◌, ◌≤◌, ◌∷◌, ◌++◌, Ok, Err, IfOk, IsOk, MatchResult, length, take, drop};
ghost use Rattle.ep_base.specs.Messages.{instance_of_message};
ghost use Rattle.ep_base.specs.Versions.{version_number};
ghost use Rattle.ep_base.specs.declared.version_kind.VersionKind.TheVariants.{V2};
ghost use Rattle.ep_frame.specs.Faults.{HasNoFault, fault_of};
ghost use Rattle.ep_frame.specs.Meaning.{version_at, sender_at, origin_at, instance_at, message_at};
ghost use Rattle.ep_frame.specs.Spelling.{IsFrame, Spells};
ghost use Rattle.ep_frame.specs.Upgrading.{IsUpgradedFrame};

use crate::fault::FrameFault;
use crate::origin::Origin;
use crate::view::FrameView;
use bytes::Bytes;
use ep_base::{InstanceId, ReplicaId, Version, VersionKind};
use std::alloc::{AllocError, Global};
use std::marker::Model;

/// A frame: shared bytes that spell one message, in one version, from one sender and with one origin. The bytes are checked
/// once, when it is read.
#[derive(Drop)]
pub struct Frame {
    bytes: Bytes,
}

impl Model for Frame {
    ghost use Rattle.std.specs.Prelude.{List, ℕ};
    ghost use Rattle.ep_frame.specs.Faults.{HasNoFault};

    ghost Value = { List ℕ };

    ghost view = { λ f. f.bytes };

    ghost invariant = { λ f. HasNoFault f.bytes };
}

/// These bytes with the version 2.
fn in_version_2(alloc: Global, bytes: &[u8]) -> Result<Bytes, AllocError>
    requires { 3 ≤ length bytes.now }
    ensures { IfOk result (λ b. b ≡ take 2 bytes.now ++ 2 ∷ drop 3 bytes.now) }
{
    let mut copy = Vec::from_slice(alloc, bytes)?;
    copy[2] = 2;
    Ok(Bytes::from_vec(copy)?)
}

impl Frame {
    /// The frame that the bytes are; otherwise the first fault from left to right.
    pub fn read(bytes: Bytes) -> Result<Frame, FrameFault>
        ensures exact { MatchResult result (λ f. fault_of bytes ≡ Ok tt) (λ f. fault_of bytes ≡ Err f) }
        // What is read spells the message that its fields say.
        ensures found { IfOk result (λ _. Spells (version_at bytes) bytes (sender_at bytes) (origin_at bytes) (message_at bytes)) }
        // What spells a message is read.
        ensures only { IsFrame bytes → IsOk result }
        ensures frame { IfOk result (λ f. f ≡ bytes) }
        // It is never of another generation: that is for its reader to see.
        ensures generation { result ≢ Err FrameFault.Generation }
    {
        FrameView::read(&bytes)?;
        Ok(Frame { bytes })
    }

    /// The frame that was written as these bytes.
    pub(crate) fn written(bytes: Bytes) -> Frame
        requires { IsFrame bytes }
        ensures { result ≡ bytes }
    {
        Frame { bytes }
    }

    /// The frame, borrowed. Nothing is checked again.
    pub fn view(&self) -> FrameView<'_>
        ensures value { result ≡ self.now }
        ensures spelled { Spells (version_at self.now) self.now (sender_at self.now) (origin_at self.now) (message_at self.now) }
        ensures frame { IsFrame self.now }
    {
        FrameView::from_valid(&self.bytes)
    }

    /// The bytes.
    pub fn as_slice(&self) -> &[u8]
        ensures { result.now ≡ self.now }
    {
        self.bytes.as_slice()
    }

    /// The bytes alone.
    pub fn into_bytes(self) -> Bytes
        ensures { result ≡ self }
    {
        self.bytes
    }

    /// The version that the frame is of.
    pub fn version(&self) -> Version
        ensures { result ≡ version_at self.now }
    {
        self.view().version()
    }

    /// The replica that sent the frame.
    pub fn from(&self) -> ReplicaId
        ensures { result ≡ sender_at self.now }
    {
        self.view().from()
    }

    /// Where the frame goes, and which one it is.
    pub fn origin(&self) -> Origin
        ensures { result ≡ origin_at self.now }
    {
        self.view().origin()
    }

    /// The instance that the message is about.
    pub fn instance(&self) -> InstanceId
        ensures value { result ≡ instance_at self.now }
        ensures message { result ≡ instance_of_message (message_at self.now) }
    {
        self.view().instance()
    }

    /// The frame in version 2, of the same sender, origin and message. One of version 2 shares its bytes; one of version 1 is
    /// copied, and its version alone changes: nothing is read or checked again.
    ///
    /// The caller sees to it that it isn't of version 3, which may say what version 2 cannot.
    pub fn upgraded(&self, alloc: Global) -> Result<Frame, AllocError>
        requires { version_number (version_at self.now) ≤ 2 }
        ensures upgraded { IfOk result (λ f. IsUpgradedFrame self.now f) }
        ensures same { version_at self.now ≡ V2 → IfOk result (λ f. f ≡ self.now) }
    {
        let view = self.view();
        match view.version().kind() {
            VersionKind::V1 => {
                let bytes = in_version_2(alloc, self.as_slice())?;
                Ok(Frame::written(bytes))
            }
            VersionKind::V2 => self.clone(),
            VersionKind::V3(_) => unreachable!(),
        }
    }
}

/// The same bytes once more, which are shared and not copied.
impl Clone for Frame {
    ghost is_clone = { λ f copy. copy ≡ f };

    fn clone(&self) -> Result<Frame, AllocError> {
        let bytes = self.bytes.clone()?;
        Ok(Frame { bytes })
    }
}
