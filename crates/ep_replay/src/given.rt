//! Which messages were given.

ghost use Rattle.std.specs.Prelude.{◌≡◌, ℕ, ◌≤◌, ◌-◌, ◌++◌, ◌∷◌, [], List, false, length, OnOk, IfOk, IfSome, slice_index_or as get_or};
ghost use Rattle.ep_replay.specs.Replays.{AreUngiven, above};
ghost use Rattle.ep_replay.specs.Tables.{AreFlagged};

use std::alloc::{AllocError, Global};

/// A flush rarely has more messages than so many.
const USUAL: usize = 32;

/// Which messages were given.
#[derive(Drop)]
pub(crate) struct Given {
    /// Each message up to this number was given.
    floor: usize,
    /// Whether each message was given, from number 1 on; those after the last flag weren't.
    flags: Vec<bool>,
}

impl Given {
    /// None was given.
    pub(crate) fn new(alloc: Global) -> Given
        ensures { AreFlagged result [] }
    {
        Given {
            floor: 0,
            flags: Vec::new(alloc),
        }
    }

    /// Makes a flag for each message up to this number.
    fn reserve(&mut self, count: usize) -> Result<(), AllocError>
        ensures room { OnOk result (count ≤ length self.new.flags.items) }
        ensures same { OnOk result ((place : ℕ) → get_or self.new.flags.items place false ≡ get_or self.old.flags.items place false) }
        ensures floor { OnOk result (self.new.floor ≡ self.old.floor) }
    {
        for _ in self.flags.len()..count {
            self.flags.push(false)?;
        }
        Ok(())
    }

    /// The message of this number, from 1, was given.
    pub(crate) fn note(&mut self, number: usize) -> Result<(), AllocError>
        requires { 1 ≤ number }
        ensures { OnOk result ((given : List ℕ) → AreFlagged self.old given → AreFlagged self.new (given ++ number ∷ [])) }
    {
        self.reserve(number)?;
        self.flags[number - 1] = true;
        Ok(())
    }

    /// Finds the least message that was never given.
    fn advance(&mut self)
        ensures { (given : List ℕ) → AreFlagged self.old given → AreFlagged self.new given }
    {
        while self.floor < self.flags.len() && self.flags[self.floor] {
            self.floor += 1;
        }
    }

    /// How many messages come before those up to this number that were never given, if no later one was given.
    pub(crate) fn prefix(&mut self, sent: usize) -> Option<usize>
        ensures flags { (given : List ℕ) → AreFlagged self.old given → AreFlagged self.new given }
        ensures within { IfSome result (λ from. from ≤ sent) }
        ensures value { IfSome result (λ from. (given : List ℕ) → AreFlagged self.old given →
            AreUngiven given sent (above from (sent - from))) }
    {
        self.advance();
        if self.floor < self.flags.len() {
            return None;
        }
        Some(self.floor.min(sent))
    }

    /// The messages up to this number that were never given, in rising number.
    pub(crate) fn ungiven(&mut self, alloc: Global, sent: usize) -> Result<Vec<u64>, AllocError>
        ensures flags { OnOk result ((given : List ℕ) → AreFlagged self.old given → AreFlagged self.new given) }
        ensures value { IfOk result (λ numbers. (given : List ℕ) → AreFlagged self.old given → AreUngiven given sent numbers.items) }
    {
        self.advance();
        let from = self.floor.min(sent);
        let mut numbers = Vec::new(alloc);
        numbers.reserve((sent - from).min(USUAL))?;
        for place in from..sent {
            if !self.is_given(place) {
                numbers.push(place as u64 + 1)?;
            }
        }
        Ok(numbers)
    }

    /// Whether the message at this place, from 0, was given.
    fn is_given(&self, place: usize) -> bool
        ensures { result ≡ get_or self.now.flags.items place false }
    {
        self.flags.get(place).copied().unwrap_or(false)
    }
}
