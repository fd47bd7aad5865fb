//! A device that failed.

use crate::system_fault::SystemFault;
use thiserror::Error;

/// The device has failed, now or before. What was asked may have been done in part.
#[derive(Clone, Copy, Debug, PartialEq, Eq, Error)]
#[error("{cause}")]
pub struct DeviceFailed {
    /// Why it failed first.
    pub cause: SystemFault,
}
