//! Room that the parts of commands are read into.

use std::alloc::Global;

/// Room that a reader uses again and again for the parts of commands: both keys, and the body.
#[derive(Drop)]
pub(crate) struct PartRoom {
    pub first: Vec<u8>,
    pub second: Vec<u8>,
    pub body: Vec<u8>,
}

impl PartRoom {
    /// No room yet.
    pub fn new(alloc: Global) -> PartRoom {
        PartRoom {
            first: Vec::new(alloc),
            second: Vec::new(alloc),
            body: Vec::new(alloc),
        }
    }
}
