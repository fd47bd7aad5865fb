//! Why the program does nothing.

ghost use Rattle.std.specs.Prelude.{◌≡◌};
ghost use Rattle.ep_cli.specs.declared.words_fault.WordsFault.TheVariants.{Memory};

use std::alloc::AllocError;

/// Why the program does nothing.
#[derive(Debug, Drop)]
pub enum WordsFault {
    /// The words of the command line are none that it knows. This says what is wrong with them, in lines.
    Words(String),
    /// Memory was refused before it knew what it was asked for.
    Memory,
}

impl From<AllocError> for WordsFault {
    ghost from_gives = { λ _ d. d ≡ Memory };

    fn from(_fault: AllocError) -> WordsFault {
        WordsFault::Memory
    }
}
