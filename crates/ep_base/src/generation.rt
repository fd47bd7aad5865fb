//! Generations.

ghost use Rattle.std.specs.Prelude.{◌≡◌, ◌≤◌, ◌↔◌, IsOk, IfOk};

use crate::out_of_range::OutOfRange;
use std::marker::Model;

/// The number of a generation, from 1 to 4,294,967,295.
#[derive(Clone, Copy, Debug, PartialEq, Eq, PartialOrd, Ord, Hash)]
pub struct Generation {
    number: u32,
}

impl Model for Generation {
    ghost use Rattle.std.specs.Prelude.{ℕ, ◌≤◌};

    ghost Value = { ℕ };

    ghost view = { λ g. g.number };

    ghost invariant = { λ g. (1 ≤ g.number) × (g.number ≤ 4294967295) };

    ghost inverse = { λ n. record { number = n } };
}

impl Generation {
    /// The generation of this number; `OutOfRange` unless it is 1 or more.
    pub fn new(number: u32) -> Result<Generation, OutOfRange>
        ensures in_range { IsOk result ↔ (1 ≤ number) }
        ensures value { IfOk result (λ g. g ≡ number) }
    {
        if number == 0 {
            return Err(OutOfRange);
        }
        Ok(Generation { number })
    }

    /// The generation that a life begins with.
    pub fn first() -> Generation
        ensures { result ≡ 1 }
    {
        Generation { number: 1 }
    }

    /// The number, from 1 to 4,294,967,295.
    pub fn number(self) -> u32
        ensures value { result ≡ self }
        ensures in_range { (1 ≤ result) × (result ≤ 4294967295) }
    {
        self.number
    }
}
