//! What a world notes of its steps.

ghost use Rattle.std.specs.Prelude.{◌≡◌, [], IfOk};

use crate::place::Place;
use ep_base::ReplicaId;
use std::alloc::{AllocError, Global};

/// For so many steps, and so many messages, a world has room from the first on.
const ROOM: usize = 16_384;

/// Replica and entry number of each step, and where each message stands, both in order.
#[derive(Drop)]
pub(crate) struct Notes {
    pub(crate) steps: Vec<(ReplicaId, u32)>,
    pub(crate) messages: Vec<Place>,
}

impl Notes {
    /// Nothing is noted.
    pub(crate) fn new(alloc: Global) -> Result<Notes, AllocError>
        ensures steps { IfOk result (λ n. n.steps.items ≡ []) }
        ensures messages { IfOk result (λ n. n.messages.items ≡ []) }
    {
        let steps = Vec::with_capacity(alloc, ROOM)?;
        let messages = Vec::with_capacity(alloc, ROOM)?;
        Ok(Notes { steps, messages })
    }
}
