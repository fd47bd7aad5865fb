//! Bytes that came from outside.

ghost use Rattle.std.specs.Prelude.{◌≡◌, ◌<◌, ◌++◌, ◌↔◌, ◌⊎◌, [], Err, IfOk, OnOk, length};
ghost use Rattle.ep_base.specs.Commands.{Put};
ghost use Rattle.ep_base.specs.Values.{most_value};

use bytes::{Bytes, BytesMut};
use ep_base::{Command, CommandFault, Key, Op};
use std::alloc::{AllocError, Global};

/// How many bytes a block has.
const BLOCK: usize = 16_384;

/// More bytes than this have memory of their own.
const MOST: usize = 2_048;

/// Keeps what came from outside, one run of bytes behind the other in blocks that they share, so that not each of them takes memory of its own.
#[derive(Drop)]
pub(crate) struct Arena {
    block: BytesMut,
}

impl Arena {
    /// No block so far.
    pub(crate) fn new(alloc: Global) -> Arena {
        Arena {
            block: BytesMut::new(alloc),
        }
    }

    /// Begins a run of so many bytes.
    fn begin(&mut self, alloc: Global, count: usize) -> Result<(), AllocError>
        ensures { OnOk result (self.new.block.items ≡ []) }
    {
        self.block.advance(self.block.len());
        if self.block.capacity() < count {
            self.block = BytesMut::with_capacity(alloc, BLOCK)?;
        }
        Ok(())
    }

    /// The one run of bytes, and then the other.
    fn joined(&mut self, alloc: Global, first: &[u8], second: &[u8]) -> Result<Bytes, AllocError>
        ensures { IfOk result (λ b. b ≡ first.now ++ second.now) }
    {
        self.begin(alloc, first.len().saturating_add(second.len()))?;
        self.block.extend_from_slice(first)?;
        self.block.extend_from_slice(second)?;
        self.block.freeze_to(self.block.len())
    }

    /// A copy of the bytes.
    pub(crate) fn copy(&mut self, alloc: Global, bytes: &[u8]) -> Result<Bytes, AllocError>
        ensures { IfOk result (λ b. b ≡ bytes.now) }
    {
        if bytes.len() > MOST {
            return Bytes::copy_from_slice(alloc, bytes);
        }
        self.joined(alloc, bytes, &[])
    }

    /// The put of this key and value; `OutOfRange` unless the key has 1 to 255 bytes and the value at most 65,535.
    #[tactic(auto, using(crate::proofs::Puts::put_fits, crate::proofs::Puts::put_is))]
    pub(crate) fn put(
        &mut self,
        alloc: Global,
        key: &[u8],
        value: &[u8],
    ) -> Result<Command, CommandFault>
        ensures ok { IfOk result (λ c. c ≡ Put key.now value.now) }
        ensures out_of_range { result ≡ Err CommandFault.OutOfRange ↔ ((length key.now ≡ 0) ⊎ (255 < length key.now) ⊎ (most_value < length value.now)) }
    {
        if key.is_empty() || key.len() > Key::LONGEST || value.len() > MOST {
            return Command::put(alloc, key, value);
        }
        let Ok(run) = self.joined(alloc, key, value) else {
            return Err(CommandFault::Memory);
        };
        Ok(Command::from_valid_parts(Op::Put, run, key.len() as u8, 0))
    }
}
