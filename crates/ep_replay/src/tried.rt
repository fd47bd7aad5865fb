//! Events that were tried.

use crate::outcome::Outcome;
use ep_world::WorldEvent;

/// An event that was tried.
#[derive(Drop)]
pub struct Tried {
    /// The number of its line in the script, from 1.
    pub line: u32,
    /// What was asked of the world.
    pub event: WorldEvent,
    /// What came of it.
    pub outcome: Outcome,
}
