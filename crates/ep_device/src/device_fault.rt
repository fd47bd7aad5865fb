//! Why a device gave no bytes.

ghost use Rattle.std.specs.Prelude.{◌≡◌};
ghost use Rattle.ep_device.specs.declared.device_fault.DeviceFault.TheVariants.{Failed, Memory};

use crate::device_failed::DeviceFailed;
use crate::system_fault::SystemFault;
use std::alloc::AllocError;
use thiserror::Error;

/// Why a device gave no bytes.
#[derive(Clone, Copy, Debug, PartialEq, Eq, Error)]
pub enum DeviceFault {
    /// Memory was refused to the caller.
    #[error("E1 memory")]
    Memory,
    /// The device has failed, now or before; why it failed first.
    #[error("{0}")]
    Failed(SystemFault),
}

impl From<AllocError> for DeviceFault {
    ghost from_gives = { λ _ e. e ≡ Memory };

    fn from(_fault: AllocError) -> DeviceFault {
        DeviceFault::Memory
    }
}

impl From<DeviceFailed> for DeviceFault {
    ghost from_gives = { λ failed e. e ≡ Failed failed.cause };

    fn from(failed: DeviceFailed) -> DeviceFault {
        DeviceFault::Failed(failed.cause)
    }
}
