//! What is asked of an instance.

use ep_base::{Command, ReplicaId};
use ep_frame::FrameView;

/// What is asked of an instance.
#[derive(Clone, Copy)]
pub enum Input<'a> {
    /// Propose the command there; the fast quorum lacks this replica.
    Start(&'a Command, &'a ReplicaId),
    /// Handle the frame's message.
    Message(&'a FrameView<'a>),
    /// Stop waiting for the fast quorum.
    GiveUp,
    /// Take the instance over.
    Recover,
}
