//! Why files are not taken.

ghost use Rattle.std.specs.Prelude.{◌≡◌};
ghost use Rattle.ep_cli.specs.declared.files_fault.FilesFault.TheVariants.{Memory};

use std::alloc::AllocError;

/// Why files whose names stand on the command line are not taken.
#[derive(Drop)]
pub enum FilesFault {
    /// Memory was refused.
    Memory,
    /// A file could not be opened or read; this is the line that says which.
    ReadFailed(Vec<u8>),
    /// What the files hold is refused; this is the line that says why.
    Refused(Vec<u8>),
}

impl From<AllocError> for FilesFault {
    ghost from_gives = { λ _ e. e ≡ Memory };

    fn from(_fault: AllocError) -> FilesFault {
        FilesFault::Memory
    }
}
