//! Keys.

ghost use Rattle.std.specs.Prelude.{◌≡◌, ◌≤◌, ◌<◌, ◌↔◌, ◌⊎◌, IsTrue, IfOk, List, ℕ, length};
ghost use Rattle.ep_base.specs.Attributes.{same_list};

use crate::command_fault::CommandFault;
use std::alloc::{AllocError, Global};
use std::marker::Model;

/// A key, of 1 to 255 bytes.
#[derive(Debug)]
pub struct Key {
    bytes: Vec<u8>,
}

// (by hand, so that no crate above proves again how the parts are dropped)
impl Drop for Key {
    fn drop(self) {
        let Key { bytes } = self;
        drop(bytes);
    }
}

impl Model for Key {
    ghost use Rattle.std.specs.Prelude.{ℕ, ◌≤◌, List, length};

    ghost Value = { List ℕ };

    ghost view = { λ k. k.bytes.items };

    ghost invariant = { λ k. (1 ≤ length k.bytes.items) × (length k.bytes.items ≤ 255) };
}

impl Key {
    /// How many bytes a key has at most.
    pub const LONGEST: usize = 255;

    /// The key of these bytes; `OutOfRange` unless they are 1 to 255.
    pub fn new(alloc: Global, bytes: &[u8]) -> Result<Key, CommandFault>
        ensures ok { IfOk result (λ k. k ≡ bytes.now) }
        ensures out_of_range { result ≡ Err CommandFault.OutOfRange ↔ ((length bytes.now ≡ 0) ⊎ (255 < length bytes.now)) }
    {
        if bytes.is_empty() || bytes.len() > Key::LONGEST {
            return Err(CommandFault::OutOfRange);
        }
        let bytes = Vec::from_slice(alloc, bytes).map_err(|_| CommandFault::Memory)?;
        Ok(Key { bytes })
    }

    /// The same key again.
    pub fn copy(&self, alloc: Global) -> Result<Key, AllocError>
        ensures { IfOk result (λ k. k ≡ self.now) }
    {
        let bytes = Vec::from_slice(alloc, self.as_slice())?;
        Ok(Key { bytes })
    }

    /// The key's bytes.
    pub fn as_slice(&self) -> &[u8]
        ensures value { result.now ≡ self.now }
        ensures in_range { (1 ≤ length self.now) × (length self.now ≤ 255) }
    {
        self.bytes.as_slice()
    }

    /// Whether both are one key.
    pub fn is_same(&self, other: &Key) -> bool
        ensures test { result ≡ same_list self.now other.now }
        ensures same { IsTrue result ↔ (self.now ≡ other.now) }
    {
        self.as_slice() == other.as_slice()
    }
}
