//! Why the program ends before its work is done.

ghost use Rattle.std.specs.Prelude.{◌≡◌};
ghost use Rattle.ep_viewer.specs.Faults.{of_bundle, of_explained, of_script, status_of};
ghost use Rattle.ep_viewer.specs.declared.viewer_fault.ViewerFault.TheVariants.{Memory, Read, Write};

use ep_base::{ReadFailed, ReplicaId, WriteFailed};
use ep_bundle::{BadField, BundleFault};
use ep_cli::Status;
use ep_explain::ExplainFault;
use ep_script::ScriptFault;
use std::alloc::AllocError;

/// Why the program ends before its work is done.
#[derive(Debug, Drop)]
pub enum ViewerFault {
    /// The script is refused; this is its first line at fault, counted from 1.
    Script(u32),
    /// The bundle is refused; this is its first field at fault.
    BadBundle(BadField),
    /// The bundle is refused; this entry of this replica, counted from 1, is the first that isn't its replica's next step.
    NotARun(ReplicaId, u32),
    /// Memory was refused.
    Memory,
    /// Reading failed.
    Read,
    /// Writing failed.
    Write,
}

impl ViewerFault {
    /// How the program then ends.
    pub fn status(&self) -> Status
        ensures { result ≡ status_of self.now }
    {
        match self {
            ViewerFault::Script(_) | ViewerFault::BadBundle(_) | ViewerFault::NotARun(_, _) =>
                Status::Refused,
            ViewerFault::Memory => Status::OutOfMemory,
            ViewerFault::Read | ViewerFault::Write => Status::Failed,
        }
    }
}

impl From<BundleFault> for ViewerFault {
    ghost from_gives = { λ b e. e ≡ of_bundle b };

    fn from(fault: BundleFault) -> ViewerFault {
        match fault {
            BundleFault::Memory => ViewerFault::Memory,
            BundleFault::ReadFailed => ViewerFault::Read,
            BundleFault::BadBundle(field) => ViewerFault::BadBundle(field),
            BundleFault::NotARun(replica, entry) => ViewerFault::NotARun(replica, entry),
        }
    }
}

impl From<ScriptFault> for ViewerFault {
    ghost from_gives = { λ s e. e ≡ of_script s };

    fn from(fault: ScriptFault) -> ViewerFault {
        match fault {
            ScriptFault::Refused(line) => ViewerFault::Script(line),
            ScriptFault::Memory => ViewerFault::Memory,
            ScriptFault::ReadFailed => ViewerFault::Read,
        }
    }
}

impl From<ExplainFault> for ViewerFault {
    ghost from_gives = { λ x e. e ≡ of_explained x };

    fn from(fault: ExplainFault) -> ViewerFault {
        match fault {
            ExplainFault::Memory => ViewerFault::Memory,
            ExplainFault::ReadFailed => ViewerFault::Read,
        }
    }
}

impl From<ReadFailed> for ViewerFault {
    ghost from_gives = { λ _ e. e ≡ Read };

    fn from(_fault: ReadFailed) -> ViewerFault {
        ViewerFault::Read
    }
}

impl From<AllocError> for ViewerFault {
    ghost from_gives = { λ _ e. e ≡ Memory };

    fn from(_fault: AllocError) -> ViewerFault {
        ViewerFault::Memory
    }
}

impl From<WriteFailed> for ViewerFault {
    ghost from_gives = { λ _ e. e ≡ Write };

    fn from(_fault: WriteFailed) -> ViewerFault {
        ViewerFault::Write
    }
}
