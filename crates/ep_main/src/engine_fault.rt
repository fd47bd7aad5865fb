//! Why the program ends before its work is done.

ghost use Rattle.std.specs.Prelude.{◌≡◌};
ghost use Rattle.ep_main.specs.Faults.{of_bundle, of_script, status_of};
ghost use Rattle.ep_main.specs.declared.engine_fault.EngineFault.TheVariants.{Memory, Write};

use ep_base::{ReplicaId, WriteFailed};
use ep_bundle::{BadField, BundleFault};
use ep_cli::Status;
use ep_run::RunFault;
use ep_script::ScriptFault;
use std::alloc::AllocError;

/// Why the program ends before its work is done.
#[derive(Clone, Copy, Debug, PartialEq, Eq)]
pub enum EngineFault {
    /// The script is refused; this is the first line at fault, counted from 1.
    Script(u32),
    /// The bundle is refused; this is its first field at fault.
    BadBundle(BadField),
    /// The bundle is refused; this entry of this replica, counted from 1, is the first that isn't its replica's next step.
    NotARun(ReplicaId, u32),
    /// Memory was refused.
    Memory,
    /// Reading failed.
    Read,
    /// Writing failed.
    Write,
}

impl EngineFault {
    /// How the program then ends.
    pub fn status(&self) -> Status
        ensures { result ≡ status_of self.now }
    {
        match self {
            EngineFault::Script(_) | EngineFault::BadBundle(_) | EngineFault::NotARun(_, _) =>
                Status::Refused,
            EngineFault::Memory => Status::OutOfMemory,
            EngineFault::Read | EngineFault::Write => Status::Failed,
        }
    }
}

impl From<ScriptFault> for EngineFault {
    ghost from_gives = { λ s e. e ≡ of_script s };

    fn from(fault: ScriptFault) -> EngineFault {
        match fault {
            ScriptFault::Refused(line) => EngineFault::Script(line),
            ScriptFault::Memory => EngineFault::Memory,
            ScriptFault::ReadFailed => EngineFault::Read,
        }
    }
}

impl From<BundleFault> for EngineFault {
    ghost from_gives = { λ b e. e ≡ of_bundle b };

    fn from(fault: BundleFault) -> EngineFault {
        match fault {
            BundleFault::Memory => EngineFault::Memory,
            BundleFault::ReadFailed => EngineFault::Read,
            BundleFault::BadBundle(field) => EngineFault::BadBundle(field),
            BundleFault::NotARun(replica, entry) => EngineFault::NotARun(replica, entry),
        }
    }
}

impl From<RunFault> for EngineFault {
    ghost from_gives = { λ _ e. e ≡ Memory };

    fn from(_fault: RunFault) -> EngineFault {
        EngineFault::Memory
    }
}

impl From<AllocError> for EngineFault {
    ghost from_gives = { λ _ e. e ≡ Memory };

    fn from(_fault: AllocError) -> EngineFault {
        EngineFault::Memory
    }
}

impl From<WriteFailed> for EngineFault {
    ghost from_gives = { λ _ e. e ≡ Write };

    fn from(_fault: WriteFailed) -> EngineFault {
        EngineFault::Write
    }
}
