//! What comes of a step.

use crate::executions::Executions;
use crate::frames::Frames;

/// What an event sends and executes: an entry without its mark and its event.
#[derive(Drop)]
pub struct Taken {
    /// The frames sent, by rising receiver.
    pub frames: Frames,
    /// The instances executed, in order, each with its answer.
    pub done: Executions,
}
