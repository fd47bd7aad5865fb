//! Lines of what replicas open with.

use ep_base::{Key, Value};

/// What a line behind `generation G` says of what the replicas open with.
#[derive(Drop)]
pub(crate) enum OpeningLine {
    /// The stamp that the clocks go on from, from 0 to 281,474,976,710,654.
    Since(u64),
    /// A key, and the value that it has.
    Entry(Key, Value),
}
