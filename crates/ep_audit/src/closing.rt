//! Seals that closed a map.

use ep_base::{InstanceId, Stamp, Value};

/// The first seal of a history, which closed the map.
#[derive(Drop)]
pub struct Closing {
    /// The instance as which the seal was committed.
    pub instance: InstanceId,
    /// The seal's value.
    pub value: Value,
    /// The least stamp of a journal's entry that executes the seal.
    pub stamp: Stamp,
}
