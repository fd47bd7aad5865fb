//! Room that is read into.

ghost use Rattle.std.specs.Prelude.{◌≡◌, ◌≤◌, [], IfOk, OnOk, length};

use crate::part_room::PartRoom;
use bytes::BytesMut;
use std::alloc::{AllocError, Global};

/// No block is longer, unless one run needs it.
const LONGEST: usize = 65_536;

/// How many zeros are written at once: what goes beyond 2 KiB, `memset` writes a byte at a time, as valgrind counts.
const PIECE: usize = 2048;

/// Room that a reader uses again and again: for bytes that are only compared, and a block for runs that are kept. These share the block, so that
/// not each of them takes memory of its own. A new block is twice as long as the one before.
#[derive(Drop)]
pub(crate) struct Room {
    pub alloc: Global,
    pub spare: Vec<u8>,
    pub block: BytesMut,
    pub parts: PartRoom,
    size: usize,
}

/// So many zeros.
fn zeros(alloc: Global, len: usize) -> Result<Vec<u8>, AllocError>
    ensures { IfOk result (λ v. length v.items ≡ len) }
{
    let mut zeros = Vec::with_capacity(alloc, len)?;
    for _ in 0..len / PIECE {
        zeros.resize(zeros.len() + PIECE, 0)?;
    }
    zeros.resize(len, 0)?;
    Ok(zeros)
}

impl Room {
    /// No room yet.
    pub fn new(alloc: Global) -> Room {
        Room {
            alloc,
            spare: Vec::new(alloc),
            block: BytesMut::new(alloc),
            parts: PartRoom::new(alloc),
            size: 0,
        }
    }

    /// Opens the block for a run of so many bytes.
    #[inline(always)]
    pub fn open(&mut self, len: usize) -> Result<(), AllocError>
        ensures { OnOk result (length self.new.block.items ≡ len) }
    {
        self.block.clear();
        if self.block.capacity() < len {
            self.renew(len)?;
        }
        self.block.advance_mut(len);
        Ok(())
    }

    /// Puts a new block in place of the old one, with room for a run of so many bytes.
    #[cold]
    #[inline(never)]
    fn renew(&mut self, len: usize) -> Result<(), AllocError>
        ensures empty { OnOk result (self.new.block.items ≡ []) }
        ensures room { OnOk result (len ≤ self.new.block.spare) }
    {
        let twice = self.size.saturating_add(self.size);
        let size = twice.min(LONGEST).max(len);
        let zeros = zeros(self.alloc, size)?;
        self.block = BytesMut::from_vec(zeros);
        self.block.clear();
        self.size = size;
        Ok(())
    }
}
