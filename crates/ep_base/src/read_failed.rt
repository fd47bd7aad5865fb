//! A read that failed.

use thiserror::Error;

/// A read has failed.
#[derive(Clone, Copy, Debug, PartialEq, Eq, Error)]
#[error("reading failed")]
pub struct ReadFailed;
