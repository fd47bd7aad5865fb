//! Which event was not played.

use ep_journal::Refusal;
use thiserror::Error;

/// The event at this place, from 0, was not enabled. Those before it were played.
#[derive(Clone, Copy, Debug, PartialEq, Eq, Error)]
#[error("E16 refused event {index}: {cause}")]
pub struct Refused {
    pub index: usize,
    pub cause: Refusal,
}
