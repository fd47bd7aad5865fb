//! What items of a line `tx` say of their keys.

use ep_base::Value;

/// What an item of a line `tx` says of its key.
#[derive(Debug, Drop)]
pub(crate) enum Clause {
    /// `if K E`: the key has to have this value, or none.
    Guard(Option<Value>),
    /// `get K`: the reply says what the key has.
    Reported,
    /// `put K V` and `del K`: the key is given this value, or none.
    Write(Option<Value>),
}
