//! Why logs and receipts make no bundle.

ghost use Rattle.std.specs.Prelude.{◌≡◌};
ghost use Rattle.ep_assemble.specs.declared.assemble_fault.AssembleFault.TheVariants.{Memory as NoMemory, Collect as NotCollected};

use crate::collect_fault::CollectFault;
use ep_log::LogFault;
use std::alloc::{AllocError, AllocFailed};
use thiserror::Error;

/// Why logs and receipts make no bundle: the first fault, by log, then by the journals together, then by file of receipts, and
/// then by the receipts together.
#[derive(Clone, Copy, Debug, PartialEq, Eq, Error)]
pub enum AssembleFault {
    /// Memory was refused.
    #[error("out of memory")]
    Memory,
    /// The log at this place, counted from 0, isn't one.
    #[error("log {0}: {1}")]
    Log(usize, LogFault),
    /// The journals aren't one for each replica of one cluster.
    #[error("{0}")]
    Collect(CollectFault),
    /// The file of receipts at this place, counted from 0, has a field at this offset that isn't allowed.
    #[error("receipts {0}: bad field at byte {1}")]
    Receipts(usize, u64),
    /// There are more receipts than a bundle counts: 2^32 - 1.
    #[error("too many receipts")]
    TooManyReceipts,
}

impl From<AllocError> for AssembleFault {
    ghost from_gives = { λ _ e. e ≡ NoMemory };

    fn from(_fault: AllocError) -> AssembleFault {
        AssembleFault::Memory
    }
}

impl<T: Drop> From<AllocFailed<T>> for AssembleFault {
    ghost from_gives = { λ _ e. e ≡ NoMemory };

    fn from(_fault: AllocFailed<T>) -> AssembleFault {
        AssembleFault::Memory
    }
}

impl From<CollectFault> for AssembleFault {
    ghost from_gives = { λ c e. e ≡ NotCollected c };

    fn from(fault: CollectFault) -> AssembleFault {
        AssembleFault::Collect(fault)
    }
}
