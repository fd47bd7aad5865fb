//! Why there is no interference set.

ghost use Rattle.std.specs.Prelude.{◌≡◌};
ghost use Rattle.ep_space.specs.declared.interference_fault.InterferenceFault.TheVariants.{Memory};

use std::alloc::AllocError;
use thiserror::Error;

/// Why there is no interference set.
#[derive(Clone, Copy, Debug, PartialEq, Eq, Error)]
pub enum InterferenceFault {
    #[error("out of memory")]
    Memory,
    /// Its sequence number would pass 1,000,000.
    #[error("seq exhausted")]
    SeqExhausted,
}

impl From<AllocError> for InterferenceFault {
    ghost from_gives = { λ _ e. e ≡ Memory };

    fn from(_fault: AllocError) -> InterferenceFault {
        InterferenceFault::Memory
    }
}
