//! Why no node was opened.

ghost use Rattle.std.specs.Prelude.{◌≡◌};
ghost use Rattle.ep_node.specs.OpenFaults.{of_device, of_log, of_resume};
ghost use Rattle.ep_node.specs.declared.open_fault.OpenFault.TheVariants.{Failed as DeviceFailure, Memory as NoMemory, OutOfRange as NoReplica};

use ep_base::OutOfRange;
use ep_device::{DeviceFailed, DeviceFault, SystemFault};
use ep_log::LogFault;
use ep_replica::ResumeFault;
use std::alloc::AllocError;
use thiserror::Error;

/// Why no node was opened. But for `Failed`, the device has what it had.
#[derive(Clone, Copy, Debug, PartialEq, Eq, Error)]
pub enum OpenFault {
    /// The replica's number is not below the cluster's size. The device was not touched.
    #[error("E3 out of range")]
    OutOfRange,
    #[error("E1 memory")]
    Memory,
    /// The device failed, and why.
    #[error("{0}")]
    Failed(SystemFault),
    /// `Existing` was asked for, and the device is empty.
    #[error("there is none")]
    NoLog,
    /// `New` was asked for, and the device isn't empty.
    #[error("there is one already")]
    LogExists,
    /// The log is that of another replica, or of a cluster of another size.
    #[error("the log is of another replica or cluster")]
    OtherLog,
    /// The bytes are no log.
    #[error("{0}")]
    Log(LogFault),
    /// The stamp of the log's entry of this number is not the one that a replica's clock gives it.
    #[error("entry {0} is not clocked")]
    NotClocked(u32),
}

impl From<OutOfRange> for OpenFault {
    ghost from_gives = { λ _ e. e ≡ NoReplica };

    fn from(_fault: OutOfRange) -> OpenFault {
        OpenFault::OutOfRange
    }
}

impl From<AllocError> for OpenFault {
    ghost from_gives = { λ _ e. e ≡ NoMemory };

    fn from(_fault: AllocError) -> OpenFault {
        OpenFault::Memory
    }
}

impl From<DeviceFailed> for OpenFault {
    ghost from_gives = { λ failed e. e ≡ DeviceFailure failed.cause };

    fn from(failed: DeviceFailed) -> OpenFault {
        OpenFault::Failed(failed.cause)
    }
}

impl From<DeviceFault> for OpenFault {
    ghost from_gives = { λ fault e. e ≡ of_device fault };

    fn from(fault: DeviceFault) -> OpenFault {
        match fault {
            DeviceFault::Memory => OpenFault::Memory,
            DeviceFault::Failed(cause) => OpenFault::Failed(cause),
        }
    }
}

impl From<LogFault> for OpenFault {
    ghost from_gives = { λ fault e. e ≡ of_log fault };

    fn from(fault: LogFault) -> OpenFault {
        match fault {
            LogFault::Memory => OpenFault::Memory,
            LogFault::NoHeader
            | LogFault::OtherVersion
            | LogFault::OtherGeneration
            | LogFault::BadLength(_)
            | LogFault::BadChecksum(_)
            | LogFault::BadEntry(_)
            | LogFault::NotNext(_)
            | LogFault::Turned(_, _) => OpenFault::Log(fault),
        }
    }
}

impl From<ResumeFault> for OpenFault {
    ghost from_gives = { λ fault e. e ≡ of_resume fault };

    fn from(fault: ResumeFault) -> OpenFault {
        match fault {
            ResumeFault::Memory => OpenFault::Memory,
            // The entries of logs are of version 2 or of a generation.
            ResumeFault::OtherVersion => OpenFault::OtherLog,
            ResumeFault::NotClocked(number) => OpenFault::NotClocked(number),
        }
    }
}
