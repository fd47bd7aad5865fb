//! Why a node took nothing.

ghost use Rattle.std.specs.Prelude.{◌≡◌};
ghost use Rattle.ep_embedded.specs.declared.taking_fault.TakingFault.TheVariants.{Refused};
ghost use Rattle.ep_journal.specs.declared.refusal.Refusal.TheVariants.{Step};

use ep_journal::{Refusal, StepFault};
use thiserror::Error;

/// Why a node took nothing.
#[derive(Clone, Copy, Debug, PartialEq, Eq, Error)]
pub enum TakingFault {
    /// The whole log is lent anew, and isn't on the disk yet: nothing is taken before `synced` says that it is.
    #[error("the log that is lent isn't on the disk")]
    Lent,
    /// The replica refused it, or the bytes are no frame.
    #[error("{0}")]
    Refused(Refusal),
}

impl From<Refusal> for TakingFault {
    ghost from_gives = { λ refusal e. e ≡ Refused refusal };

    fn from(refusal: Refusal) -> TakingFault {
        TakingFault::Refused(refusal)
    }
}

impl From<StepFault> for TakingFault {
    ghost from_gives = { λ fault e. e ≡ Refused (Step fault) };

    fn from(fault: StepFault) -> TakingFault {
        TakingFault::Refused(Refusal::Step(fault))
    }
}
