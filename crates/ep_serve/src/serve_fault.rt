//! Why a node no longer serves.

ghost use Rattle.std.specs.Prelude.{◌≡◌};
ghost use Rattle.ep_serve.specs.Faults.{of_node, of_request};
ghost use Rattle.ep_serve.specs.declared.serve_fault.ServeFault.TheVariants.{Memory as NoMemory, WriteFailed as Unwritten};

use crate::answer_fault::AnswerFault;
use ep_base::WriteFailed;
use ep_device::SystemFault;
use ep_node::NodeFault;
use ep_wire::RequestFault;
use std::alloc::{AllocError, AllocFailed};
use thiserror::Error;

/// Why a node no longer serves.
#[derive(Clone, Copy, Debug, PartialEq, Eq, Error)]
pub enum ServeFault {
    /// Memory was refused.
    #[error("out of memory")]
    Memory,
    /// The source failed.
    #[error("reading failed")]
    ReadFailed,
    /// The request whose first byte stands at this offset is cut by the end of the input, or its length is out of range. All that
    /// was taken before is on the disk, and answered.
    #[error("request refused at byte {0}")]
    BadRequest(u64),
    /// The sink failed.
    #[error("writing failed")]
    WriteFailed,
    /// The log's device failed, and why. Nothing that waited was handed out.
    #[error("log failed: {0}")]
    LogFailed(SystemFault),
}

impl From<RequestFault> for ServeFault {
    ghost from_gives = { λ fault e. e ≡ of_request fault };

    fn from(fault: RequestFault) -> ServeFault {
        match fault {
            RequestFault::Memory => ServeFault::Memory,
            RequestFault::ReadFailed => ServeFault::ReadFailed,
            RequestFault::BadRequest(at) => ServeFault::BadRequest(at),
        }
    }
}

impl From<NodeFault> for ServeFault {
    ghost from_gives = { λ fault e. e ≡ of_node fault };

    fn from(fault: NodeFault) -> ServeFault {
        match fault {
            NodeFault::Failed(cause) => ServeFault::LogFailed(cause),
            // A node whose device works refuses a sync only when out of memory.
            NodeFault::Memory | NodeFault::Refused(_) | NodeFault::Closed => ServeFault::Memory,
        }
    }
}

impl From<AnswerFault> for ServeFault {
    ghost from_gives = { λ _ e. e ≡ NoMemory };

    fn from(_fault: AnswerFault) -> ServeFault {
        ServeFault::Memory
    }
}

impl From<AllocError> for ServeFault {
    ghost from_gives = { λ _ e. e ≡ NoMemory };

    fn from(_fault: AllocError) -> ServeFault {
        ServeFault::Memory
    }
}

impl<T: Drop> From<AllocFailed<T>> for ServeFault {
    ghost from_gives = { λ _ e. e ≡ NoMemory };

    fn from(_fault: AllocFailed<T>) -> ServeFault {
        ServeFault::Memory
    }
}

impl From<WriteFailed> for ServeFault {
    ghost from_gives = { λ _ e. e ≡ Unwritten };

    fn from(_fault: WriteFailed) -> ServeFault {
        ServeFault::WriteFailed
    }
}
