//! Sequence numbers.

ghost use Rattle.std.specs.Prelude.{◌≡◌, ◌≤◌, ◌↔◌, IsOk, IfOk, max};

use crate::out_of_range::OutOfRange;
use std::marker::Model;

/// A command's sequence number, from 1 to 1,000,000.
#[derive(Clone, Copy, Debug, PartialEq, Eq, PartialOrd, Ord, Hash)]
pub struct Seq {
    number: u32,
}

impl Model for Seq {
    ghost use Rattle.std.specs.Prelude.{ℕ, ◌≤◌};

    ghost Value = { ℕ };

    ghost view = { λ s. s.number };

    ghost invariant = { λ s. (1 ≤ s.number) × (s.number ≤ 1000000) };

    ghost inverse = { λ n. record { number = n } };
}

impl Seq {
    /// The sequence number; `OutOfRange` unless it is 1 to 1,000,000.
    pub fn new(number: u32) -> Result<Seq, OutOfRange>
        ensures in_range { IsOk result ↔ ((1 ≤ number) × (number ≤ 1000000)) }
        ensures value { IfOk result (λ s. s ≡ number) }
    {
        if number == 0 || number > 1_000_000 {
            return Err(OutOfRange);
        }
        Ok(Seq { number })
    }

    /// The sequence number of this number, which is 1 to 1,000,000.
    pub fn from_valid(number: u32) -> Seq
        requires { (1 ≤ number) × (number ≤ 1000000) }
        ensures { result ≡ number }
    {
        Seq { number }
    }

    /// The number, from 1 to 1,000,000.
    pub fn number(self) -> u32
        ensures value { result ≡ self }
        ensures in_range { (1 ≤ result) × (result ≤ 1000000) }
    {
        self.number
    }

    /// The greater of the two.
    pub fn greater(self, other: Seq) -> Seq
        ensures { result ≡ max self other }
    {
        if self < other { other } else { self }
    }
}
