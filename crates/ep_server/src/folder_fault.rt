//! Why no node is opened in a folder.

ghost use Rattle.std.specs.Prelude.{◌≡◌};
ghost use Rattle.ep_server.specs.Faults.{of_device, status_of_folder};
ghost use Rattle.ep_server.specs.declared.folder_fault.FolderFault.TheVariants.{Memory as NoMemory, Refused as IsRefused};

use ep_cli::Status;
use ep_device::{DeviceFault, SystemFault};
use ep_folder::StartFault;
use ep_opening::OpeningFault;
use std::alloc::AllocError;

/// Why no node is opened in a folder.
#[derive(Clone, Copy)]
pub enum FolderFault {
    /// Memory was refused.
    Memory,
    /// A file or a folder could not be read or written, and why.
    Failed(SystemFault),
    /// The file of the opening that is to be taken could not be read, and why.
    Unread(SystemFault),
    /// What is there doesn't go with what is asked for.
    Refused(StartFault),
    /// This generation has no log, and may have had one.
    NoLog(u32),
    /// The opening of this generation isn't one.
    Opening(u32, OpeningFault),
    /// The opening that stands in the place of that of the first of these generations is of the second.
    OtherGeneration(u32, u32),
    /// The reference of this generation isn't one.
    Reference(u32, OpeningFault),
    /// The reference that stands in the place of that of the first of these generations is of the second.
    OtherReference(u32, u32),
    /// The log of this generation has fewer bytes than the next generation opens with.
    ShortLog(u32),
    /// The log of this generation isn't the one that the next generation opens with.
    OtherLog(u32),
    /// This generation has so many replicas, and another number was given.
    OtherSize(u32, u32),
    /// What is to be taken is no opening.
    NoOpening(OpeningFault),
    /// What is to be taken is for so many replicas, and another number was given.
    OtherCluster(u32),
    /// The last generation has been closed.
    Last,
}

impl FolderFault {
    /// How the program then ends.
    pub fn status(&self) -> Status
        ensures { result ≡ status_of_folder self.now }
    {
        match self {
            FolderFault::Memory => Status::OutOfMemory,
            FolderFault::Failed(_) | FolderFault::Unread(_) => Status::Failed,
            FolderFault::Refused(_)
            | FolderFault::NoLog(_)
            | FolderFault::Opening(_, _)
            | FolderFault::OtherGeneration(_, _)
            | FolderFault::Reference(_, _)
            | FolderFault::OtherReference(_, _)
            | FolderFault::ShortLog(_)
            | FolderFault::OtherLog(_)
            | FolderFault::OtherSize(_, _)
            | FolderFault::NoOpening(_)
            | FolderFault::OtherCluster(_)
            | FolderFault::Last => Status::Refused,
        }
    }
}

impl From<AllocError> for FolderFault {
    ghost from_gives = { λ _ e. e ≡ NoMemory };

    fn from(_fault: AllocError) -> FolderFault {
        FolderFault::Memory
    }
}

impl From<DeviceFault> for FolderFault {
    ghost from_gives = { λ fault e. e ≡ of_device fault };

    fn from(fault: DeviceFault) -> FolderFault {
        match fault {
            DeviceFault::Memory => FolderFault::Memory,
            DeviceFault::Failed(cause) => FolderFault::Failed(cause),
        }
    }
}

impl From<StartFault> for FolderFault {
    ghost from_gives = { λ refusal e. e ≡ IsRefused refusal };

    fn from(refusal: StartFault) -> FolderFault {
        FolderFault::Refused(refusal)
    }
}
