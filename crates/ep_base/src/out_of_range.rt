//! A number outside its range.

use thiserror::Error;

/// A number lies outside its range.
#[derive(Clone, Copy, Debug, PartialEq, Eq, Error)]
#[error("out of range")]
pub struct OutOfRange;
