//! Why an audit of a chain answers no verdicts.

ghost use Rattle.std.specs.Prelude.{◌≡◌};
ghost use Rattle.ep_audit.specs.declared.chain_verdict_fault.ChainVerdictFault.TheVariants.{Memory};

use crate::chain_fault::ChainFault;
use std::alloc::AllocError;

/// Why an audit of a chain answers no verdicts.
#[derive(Debug, Drop)]
pub enum ChainVerdictFault {
    /// Memory was refused.
    Memory,
    /// The place of the first generation that has a fault, counted from 0, and its first fault.
    Fault(usize, ChainFault),
}

impl From<AllocError> for ChainVerdictFault {
    ghost from_gives = { λ _ e. e ≡ Memory };

    fn from(_fault: AllocError) -> ChainVerdictFault {
        ChainVerdictFault::Memory
    }
}
