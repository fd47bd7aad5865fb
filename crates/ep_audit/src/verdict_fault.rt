//! Why an audit answers no verdict.

ghost use Rattle.std.specs.Prelude.{◌≡◌};
ghost use Rattle.ep_audit.specs.declared.verdict_fault.VerdictFault.TheVariants.{Memory};

use crate::audit_fault::AuditFault;
use std::alloc::AllocError;
use thiserror::Error;

/// Why an audit answers no verdict.
#[derive(Clone, Copy, Debug, PartialEq, Eq, Error)]
pub enum VerdictFault {
    #[error("E1 memory")]
    Memory,
    /// The first fault of the journals and the receipts.
    #[error("{0}")]
    Fault(AuditFault),
}

impl From<AllocError> for VerdictFault {
    ghost from_gives = { λ _ e. e ≡ Memory };

    fn from(_fault: AllocError) -> VerdictFault {
        VerdictFault::Memory
    }
}
