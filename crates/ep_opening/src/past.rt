//! What began a generation.

use ep_base::{Deps, Generation, Value};

/// What an opening file says besides the cluster's size and the opening: of the generation after a journal's, the seal that closed this one, and the instances
/// that it executed up to that seal.
#[derive(Drop)]
pub(crate) struct Past {
    pub(crate) generation: Generation,
    pub(crate) seal: Option<Value>,
    pub(crate) executed: Deps,
}
