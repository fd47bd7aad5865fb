//! Why a request was not read.

ghost use Rattle.std.specs.Prelude.{◌≡◌};
ghost use Rattle.ep_wire.specs.declared.request_fault.RequestFault.TheVariants.{Memory as NoMemory};

use std::alloc::AllocError;
use thiserror::Error;

/// Why a request was not read.
#[derive(Clone, Copy, Debug, PartialEq, Eq, Error)]
pub enum RequestFault {
    /// Memory was refused.
    #[error("out of memory")]
    Memory,
    /// The source failed.
    #[error("reading failed")]
    ReadFailed,
    /// The request whose first byte stands at this offset is cut by the end of the input, or its length is out of range.
    /// Offsets are counted from 0 and stop at 2^64 - 1.
    #[error("request refused at byte {0}")]
    BadRequest(u64),
}

impl From<AllocError> for RequestFault {
    ghost from_gives = { λ _ e. e ≡ NoMemory };

    fn from(_fault: AllocError) -> RequestFault {
        RequestFault::Memory
    }
}
