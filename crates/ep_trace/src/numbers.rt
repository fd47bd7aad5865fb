//! The numbers in an event's line.

ghost use Rattle.std.specs.Prelude.{◌≡◌, ◌+◌, IfOk};

use std::alloc::AllocError;

/// The numbers in an event's line.
#[derive(Clone, Copy)]
pub(crate) struct Numbers {
    /// The number of the script's line.
    pub line: u32,
    /// The number of the message that is given, where one is.
    pub given: Option<u64>,
    /// The number that the first message has which the event sends.
    pub first: u64,
}

/// The number after this one. No memory holds as many messages as it can count.
pub(crate) fn next(number: u64) -> Result<u64, AllocError>
    ensures { IfOk result (λ n. n ≡ number + 1) }
{
    match number.checked_add(1) {
        Some(next) => Ok(next),
        None => Err(AllocError),
    }
}
