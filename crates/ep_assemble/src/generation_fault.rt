//! Why the logs of a generation make no bundle.

ghost use Rattle.std.specs.Prelude.{◌≡◌};
ghost use Rattle.ep_assemble.specs.declared.assemble_fault.AssembleFault.TheVariants.{Memory as NoMemory, Collect as NotCollected};
ghost use Rattle.ep_assemble.specs.declared.generation_fault.GenerationFault.TheVariants.{Assemble as NotAssembled};

use crate::assemble_fault::AssembleFault;
use crate::collect_fault::CollectFault;
use crate::differing::Differing;
use ep_opening::OpeningFault;
use std::alloc::{AllocError, AllocFailed};
use thiserror::Error;

/// Why the logs of a generation, with their opening files, and receipts make no bundle: the first fault, by opening file, then by the opening
/// files together, and then as `AssembleFault` has it. Places are counted from 0.
#[derive(Clone, Copy, Debug, PartialEq, Eq, Error)]
pub enum GenerationFault {
    /// There is no log.
    #[error("no log")]
    NoLog,
    /// The opening file at this place isn't one.
    #[error("opening {0}: {1}")]
    Opening(usize, OpeningFault),
    /// The opening file at this place is of another generation or cluster, or has another map.
    #[error("opening {0}: another {1}")]
    Other(usize, Differing),
    /// The log at this place is of a cluster of another size than its opening file.
    #[error("log {0}: another size")]
    LogSize(usize),
    /// Memory was refused, or the logs and receipts make no bundle.
    #[error("{0}")]
    Assemble(AssembleFault),
}

impl From<AssembleFault> for GenerationFault {
    ghost from_gives = { λ fault e. e ≡ NotAssembled fault };

    fn from(fault: AssembleFault) -> GenerationFault {
        GenerationFault::Assemble(fault)
    }
}

impl From<CollectFault> for GenerationFault {
    ghost from_gives = { λ fault e. e ≡ NotAssembled (NotCollected fault) };

    fn from(fault: CollectFault) -> GenerationFault {
        GenerationFault::Assemble(AssembleFault::Collect(fault))
    }
}

impl From<AllocError> for GenerationFault {
    ghost from_gives = { λ _ e. e ≡ NotAssembled NoMemory };

    fn from(_fault: AllocError) -> GenerationFault {
        GenerationFault::Assemble(AssembleFault::Memory)
    }
}

impl<T: Drop> From<AllocFailed<T>> for GenerationFault {
    ghost from_gives = { λ _ e. e ≡ NotAssembled NoMemory };

    fn from(_fault: AllocFailed<T>) -> GenerationFault {
        GenerationFault::Assemble(AssembleFault::Memory)
    }
}
