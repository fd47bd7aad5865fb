//! Why an event of an instance is refused.

ghost use Rattle.std.specs.Prelude.{◌≡◌};
ghost use Rattle.ep_phase.specs.Refused.{of_limit};
ghost use Rattle.ep_phase.specs.declared.decision_fault.DecisionFault.TheVariants.{Memory};

use ep_space::InterferenceFault;
use std::alloc::AllocError;
use thiserror::Error;

/// Why an event of an instance is refused.
#[derive(Clone, Copy, Debug, PartialEq, Eq, Error)]
pub enum DecisionFault {
    #[error("out of memory")]
    Memory,
    /// The sequence number would pass 1,000,000.
    #[error("seq exhausted")]
    SeqExhausted,
    /// The replica does not lead the instance's default ballot in phase 1, has promised another ballot, or has committed.
    #[error("not leading")]
    NotLeading,
    /// Fewer replicas have answered than may fail.
    #[error("too few answers")]
    TooFewAnswers,
    /// The replica has committed the instance.
    #[error("already committed")]
    AlreadyCommitted,
    /// The counter of the new ballot would pass 60,000.
    #[error("ballots exhausted")]
    BallotsExhausted,
}

impl From<AllocError> for DecisionFault {
    ghost from_gives = { λ _ e. e ≡ Memory };

    fn from(_fault: AllocError) -> DecisionFault {
        DecisionFault::Memory
    }
}

impl From<InterferenceFault> for DecisionFault {
    ghost from_gives = { λ f e. e ≡ of_limit f };

    fn from(fault: InterferenceFault) -> DecisionFault {
        match fault {
            InterferenceFault::Memory => DecisionFault::Memory,
            InterferenceFault::SeqExhausted => DecisionFault::SeqExhausted,
        }
    }
}
