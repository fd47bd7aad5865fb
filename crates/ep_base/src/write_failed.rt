//! A write that failed.

use thiserror::Error;

/// A write has failed.
#[derive(Clone, Copy, Debug, PartialEq, Eq, Error)]
#[error("writing failed")]
pub struct WriteFailed;
