//! Numbers of messages.

ghost use Rattle.std.specs.Prelude.{◌≡◌, [], ◌∷◌, ◌++◌, OnOk, OnErr};

use std::alloc::{AllocError, Global};
use std::marker::Model;

/// The messages that one line delivers, by their numbers, in its order.
#[derive(Debug, Drop)]
pub struct Messages {
    numbers: Vec<u32>,
}

impl Model for Messages {
    ghost use Rattle.std.specs.Prelude.{ℕ, List};

    ghost Value = { List ℕ };

    ghost view = { λ m. m.numbers.items };
}

impl Messages {
    /// No messages.
    pub fn new(alloc: Global) -> Messages
        ensures { result ≡ [] }
    {
        Messages {
            numbers: Vec::new(alloc),
        }
    }

    /// The numbers.
    pub fn as_slice(&self) -> &[u32]
        ensures { result.now ≡ self.now }
    {
        self.numbers.as_slice()
    }

    /// Adds a number at the end. At an `Err` nothing has changed.
    pub fn push(&mut self, number: u32) -> Result<(), AllocError>
        ensures ok { OnOk result (self.new ≡ self.old ++ number ∷ []) }
        ensures err { OnErr result (self.new ≡ self.old) }
    {
        self.numbers.push(number)?;
        Ok(())
    }
}
