//! What the operating system's errors are reported as.

ghost use Rattle.std.specs.Prelude.{◌≡◌, ◌≢◌, ◌⊎◌};
ghost use Rattle.std_io.specs.IoError.{error_kind, raw_os_error};
ghost use Rattle.ep_device.specs.Files.{cause_in, cause_of};

use crate::device_fault::DeviceFault;
use crate::system_fault::SystemFault;
use std::io;
use std::io::ErrorKind;

/// The number of the error that there is no such file, on Linux.
pub(crate) const NO_SUCH_FILE: i32 = 2;

/// What an error of this number is, as Linux has it on x86-64 and aarch64.
#[tactic(auto, unfolding(crate::specs::Files::cause_in))]
fn cause_in(number: u32) -> SystemFault
    ensures { result ≡ cause_in number }
{
    match number {
        1 | 13 => SystemFault::NotAllowed,
        2 | 20 => SystemFault::NotFound,
        5 => SystemFault::InputOutput,
        11 => SystemFault::Locked,
        12 => SystemFault::NoMemory,
        21 => SystemFault::NotAFile,
        27 => SystemFault::TooLarge,
        28 => SystemFault::NoSpace,
        30 => SystemFault::ReadOnly,
        122 => SystemFault::OverQuota,
        _ => SystemFault::System(number),
    }
}

/// What the error is.
pub(crate) fn cause_of(error: &io::Error) -> SystemFault
    ensures { result ≡ cause_of (raw_os_error error.now) }
{
    match error.raw_os_error() {
        Some(number) => cause_in(number.unsigned_abs()),
        None => SystemFault::Unknown,
    }
}

/// What the error is reported as: out of memory, or a failure.
pub fn fault_of(error: &io::Error) -> DeviceFault
    ensures { ((error_kind error.now ≡ ErrorKind.OutOfMemory) × (result ≡ DeviceFault.Memory)) ⊎ ((error_kind error.now ≢ ErrorKind.OutOfMemory) × (result ≡ DeviceFault.Failed (cause_of (raw_os_error error.now)))) }
{
    if error.kind() == ErrorKind::OutOfMemory {
        return DeviceFault::Memory;
    }
    DeviceFault::Failed(cause_of(error))
}
