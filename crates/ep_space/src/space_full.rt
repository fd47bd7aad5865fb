//! No number is free.

use thiserror::Error;

/// The replica has a record of each of the instances that a leader has in the version.
#[derive(Clone, Copy, Debug, PartialEq, Eq, Error)]
#[error("space full")]
pub struct SpaceFull;
