//! Why there is no execution order.

use ep_base::InstanceId;
use std::alloc::AllocError;
use thiserror::Error;

/// Why there is no execution order.
#[derive(Clone, Copy, Debug, PartialEq, Eq, Error)]
pub enum PlanFault {
    #[error("out of memory")]
    Memory,
    /// The least instance that the root reaches and that is not committed.
    #[error("not committed")]
    NotCommitted(InstanceId),
}

impl From<AllocError> for PlanFault {
    ghost use Rattle.std.specs.Prelude.{◌≡◌};
    ghost use Rattle.ep_exec.specs.declared.plan_fault.PlanFault.TheVariants.{Memory};

    ghost from_gives = { λ _ e. e ≡ Memory };

    fn from(_: AllocError) -> Self {
        PlanFault::Memory
    }
}
