//! A `Checkpoint` for hosts in other languages.

ghost use Rattle.std.specs.Prelude.{◌≡◌};

use ep_opening::Checkpoint;
use std::alloc::{AllocError, Global};

/// A `Checkpoint` that keeps the piece that it gave last.
#[derive(Drop)]
pub struct HostedCheckpoint {
    pub checkpoint: Checkpoint,
    pub piece: Vec<u8>,
}

impl HostedCheckpoint {
    ghost use Rattle.std.specs.Prelude.{◌≡◌, ◌≤◌, ◌++◌, [], length, max, OnOk, OnErr};
    ghost use Rattle.ep_opening.specs.Pieces.{longest_field, IsAlone};

    /// It has given nothing yet.
    pub fn new(alloc: Global, checkpoint: Checkpoint) -> HostedCheckpoint
        ensures checkpoint { result.checkpoint ≡ checkpoint }
        ensures piece { result.piece.items ≡ [] }
    {
        HostedCheckpoint {
            checkpoint,
            piece: Vec::new(alloc),
        }
    }

    /// Lets go what is left of the generation before.
    pub fn let_go(&mut self)
        ensures { (self.new.checkpoint ≡ self.old.checkpoint) × (self.new.piece.items ≡ self.old.piece.items) }
    {
        self.checkpoint.let_go();
    }

    /// Gives the next bytes: at most `most` of them, or 189,004 where that is more; none where all was given, and else some. The digest is given alone. They are `piece` then. At an `Err`
    /// all is as it was.
    pub fn give(&mut self, alloc: Global, most: usize) -> Result<(), AllocError>
        ensures ok { OnOk result (self.old.checkpoint.left ≡ self.new.piece.items ++ self.new.checkpoint.left) }
        ensures more { OnOk result (self.new.piece.items ≡ [] → self.old.checkpoint.left ≡ []) }
        ensures short { OnOk result (length self.new.piece.items ≤ max most longest_field) }
        ensures alone { OnOk result (IsAlone self.old.checkpoint.file self.new.piece.items self.new.checkpoint.left) }
        ensures file { self.new.checkpoint.file ≡ self.old.checkpoint.file }
        ensures err { OnErr result (self.new ≡ self.old) }
    {
        let piece = self.checkpoint.give(alloc, most)?;
        self.piece = piece;
        Ok(())
    }
}
