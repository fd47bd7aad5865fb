//! What stands before the map.

use ep_base::{Generation, Size, Value};

/// What stands between a file's version and its map.
#[derive(Drop)]
pub(crate) struct Front {
    pub(crate) size: Size,
    pub(crate) generation: Generation,
    pub(crate) base_stamp: u64,
    pub(crate) seal: Option<Value>,
}
