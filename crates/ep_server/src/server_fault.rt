//! Why the program ends before its work is done.

ghost use Rattle.std.specs.Prelude.{◌≡◌};
ghost use Rattle.ep_server.specs.Faults.{status_of};
ghost use Rattle.ep_server.specs.declared.server_fault.ServerFault.TheVariants.{Folder, Open, Serve};

use crate::folder_fault::FolderFault;
use ep_cli::Status;
use ep_node::OpenFault;
use ep_serve::ServeFault;

/// Why the program ends before its work is done.
#[derive(Clone, Copy)]
pub enum ServerFault {
    /// No node was opened on the log.
    Open(OpenFault),
    /// The node no longer serves.
    Serve(ServeFault),
    /// No node is opened in the folder.
    Folder(FolderFault),
}

impl ServerFault {
    /// How the program then ends.
    pub fn status(&self) -> Status
        ensures { result ≡ status_of self.now }
    {
        match self {
            ServerFault::Folder(why) => why.status(),
            ServerFault::Open(
                OpenFault::OutOfRange
                | OpenFault::NoLog
                | OpenFault::LogExists
                | OpenFault::OtherLog
                | OpenFault::Log(_)
                | OpenFault::NotClocked(_),
            )
            | ServerFault::Serve(ServeFault::BadRequest(_)) => Status::Refused,
            ServerFault::Open(OpenFault::Memory) | ServerFault::Serve(ServeFault::Memory) => {
                Status::OutOfMemory
            }
            ServerFault::Open(OpenFault::Failed(_))
            | ServerFault::Serve(
                ServeFault::ReadFailed | ServeFault::WriteFailed | ServeFault::LogFailed(_),
            ) => Status::Failed,
        }
    }
}

impl From<OpenFault> for ServerFault {
    ghost from_gives = { λ fault e. e ≡ Open fault };

    fn from(fault: OpenFault) -> ServerFault {
        ServerFault::Open(fault)
    }
}

impl From<ServeFault> for ServerFault {
    ghost from_gives = { λ fault e. e ≡ Serve fault };

    fn from(fault: ServeFault) -> ServerFault {
        ServerFault::Serve(fault)
    }
}

impl From<FolderFault> for ServerFault {
    ghost from_gives = { λ fault e. e ≡ Folder fault };

    fn from(fault: FolderFault) -> ServerFault {
        ServerFault::Folder(fault)
    }
}
