//! Files that grow at their end and are written anew: what a read returns, and what a crash may leave.
//!
//! `Device` is what a log is kept on, with what is assumed of it. `FileDevice` is one over a file of the operating system, for
//! which the assumptions are taken on trust, as they are of a `HostDevice`, which a host writes; `MemoryDevice` is one in memory, for tests, which meets them and can crash.
//!
//! Start with `device.rt` and specs/Device.antt.
#![tactic(auto)]

mod countdown;
mod crash_content;
mod device;
mod device_failed;
mod device_fault;
mod file_device;
mod history;
mod host_device;
mod memory_device;
mod synced;
mod system;
mod system_fault;

pub use device::Device;
pub use device_failed::DeviceFailed;
pub use device_fault::DeviceFault;
pub use file_device::{FileDevice, lock_of};
pub use host_device::HostDevice;
pub use memory_device::MemoryDevice;
pub use synced::append_and_sync;
pub use system::fault_of;
pub use system_fault::SystemFault;
