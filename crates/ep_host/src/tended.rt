//! What a pump leaves to be done.

use ep_frame::Frame;

/// What a pump leaves to be done, once the replica's lock is let go.
#[derive(Drop)]
pub struct Tended {
    /// Whether a frame was given, or an instance was executed.
    pub moved: bool,
    /// The frames to be sent, in order.
    pub frames: Vec<Frame>,
    /// How many frames were lost when out of memory: of those to be sent, and the frame that was given.
    pub lost: u64,
}
