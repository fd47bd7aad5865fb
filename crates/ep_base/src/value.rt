//! Values.

ghost use Rattle.std.specs.Prelude.{◌≡◌, ◌≤◌, ◌<◌, ◌↔◌, IsTrue, IfOk, List, ℕ, length};
ghost use Rattle.ep_base.specs.Attributes.{same_list};
ghost use Rattle.ep_base.specs.Values.{most_value};

use crate::command_fault::CommandFault;
use std::alloc::{AllocError, Global};
use std::marker::Model;

/// A value, of 0 to 65,535 bytes.
#[derive(Debug)]
pub struct Value {
    bytes: Vec<u8>,
}

// (by hand, so that no crate above proves again how the parts are dropped)
impl Drop for Value {
    fn drop(self) {
        let Value { bytes } = self;
        drop(bytes);
    }
}

impl Model for Value {
    ghost use Rattle.std.specs.Prelude.{ℕ, ◌≤◌, List, length};
    ghost use Rattle.ep_base.specs.Values.{most_value};

    ghost Value = { List ℕ };

    ghost view = { λ v. v.bytes.items };

    ghost invariant = { λ v. length v.bytes.items ≤ most_value };
}

impl Value {
    /// How many bytes a value has at most.
    pub const LONGEST: usize = 65_535;

    /// How many it has at most in versions 1 and 2.
    pub const LONGEST_EARLY: usize = 1_024;

    /// The value of these bytes; `OutOfRange` if they are more than 65,535.
    pub fn new(alloc: Global, bytes: &[u8]) -> Result<Value, CommandFault>
        ensures ok { IfOk result (λ v. v ≡ bytes.now) }
        ensures out_of_range { result ≡ Err CommandFault.OutOfRange ↔ (most_value < length bytes.now) }
    {
        if bytes.len() > Value::LONGEST {
            return Err(CommandFault::OutOfRange);
        }
        let bytes = Vec::from_slice(alloc, bytes).map_err(|_| CommandFault::Memory)?;
        Ok(Value { bytes })
    }

    /// The value of these bytes, of which there are at most 65,535.
    pub fn from_valid(alloc: Global, bytes: &[u8]) -> Result<Value, AllocError>
        requires { length bytes.now ≤ most_value }
        ensures { IfOk result (λ v. v ≡ bytes.now) }
    {
        let bytes = Vec::from_slice(alloc, bytes)?;
        Ok(Value { bytes })
    }

    /// The same value again.
    pub fn copy(&self, alloc: Global) -> Result<Value, AllocError>
        ensures { IfOk result (λ v. v ≡ self.now) }
    {
        let bytes = Vec::from_slice(alloc, self.as_slice())?;
        Ok(Value { bytes })
    }

    /// How many bytes there are.
    pub fn len(&self) -> usize
        ensures value { result ≡ length self.now }
        ensures in_range { result ≤ most_value }
    {
        self.bytes.len()
    }

    /// Whether there are none.
    pub fn is_empty(&self) -> bool
        ensures { IsTrue result ↔ (length self.now ≡ 0) }
    {
        self.bytes.is_empty()
    }

    /// The value's bytes.
    pub fn as_slice(&self) -> &[u8]
        ensures value { result.now ≡ self.now }
        ensures in_range { length self.now ≤ most_value }
    {
        self.bytes.as_slice()
    }

    /// Whether both are one value.
    pub fn is_same(&self, other: &Value) -> bool
        ensures test { result ≡ same_list self.now other.now }
        ensures same { IsTrue result ↔ (self.now ≡ other.now) }
    {
        self.as_slice() == other.as_slice()
    }

    /// The same value again, or none again.
    pub fn copy_option(value: &Option<Value>, alloc: Global) -> Result<Option<Value>, AllocError>
        ensures { IfOk result (λ v. v ≡ value.now) }
    {
        match value {
            None => Ok(None),
            Some(value) => Ok(Some(value.copy(alloc)?)),
        }
    }
}
