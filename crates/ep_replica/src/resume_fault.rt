//! Why no replica goes on from a journal.

ghost use Rattle.std.specs.Prelude.{◌≡◌};
ghost use Rattle.ep_replica.specs.declared.resume_fault.ResumeFault.TheVariants.{Memory};

use std::alloc::AllocError;
use thiserror::Error;

/// Why no replica goes on from a journal.
#[derive(Clone, Copy, Debug, PartialEq, Eq, Error)]
pub enum ResumeFault {
    #[error("E1 memory")]
    Memory,
    /// The journal is of version 1, and has to be upgraded first.
    #[error("the journal is of another version")]
    OtherVersion,
    /// The stamp of the entry of this number is not the one that a replica's clock gives it: one more than the greatest stamp that the replica knew.
    #[error("entry {0} is not clocked")]
    NotClocked(u32),
}

impl From<AllocError> for ResumeFault {
    ghost from_gives = { λ _ e. e ≡ Memory };

    fn from(_fault: AllocError) -> ResumeFault {
        ResumeFault::Memory
    }
}
