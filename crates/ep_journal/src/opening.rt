//! What the replicas of a generation open with.

ghost use Rattle.std.specs.Prelude.{◌≡◌, ◌≤◌, ◌↔◌, length, IsTrue, IsOk, IfOk};
ghost use Rattle.std.specs.FinMap.{entries};
ghost use Rattle.ep_journal.specs.Openings.{no_opening};

use ep_base::OutOfRange;
use ep_exec::Contents;
use std::alloc::{AllocError, Global};
use std::marker::Model;

/// What the replicas of a generation open with: a map of at most 4,000,000,000 keys, and the stamp that their clocks go on from, from 0 to
/// 281,474,976,710,655.
#[derive(Drop)]
pub struct Opening {
    contents: Contents,
    base_stamp: u64,
}

impl Model for Opening {
    ghost use Rattle.std.specs.Prelude.{◌≤◌, length};
    ghost use Rattle.std.specs.FinMap.{entries};
    ghost use Rattle.ep_journal.specs.Openings as openings;
    ghost use Rattle.ep_journal.specs.Openings.{opening_code};

    ghost Value = { openings.Opening };

    ghost coded = { opening_code };

    ghost view = { λ o. record { contents = o.contents; base_stamp = o.base_stamp } };

    ghost invariant = { λ o. (o.base_stamp ≤ 281474976710655) × (length (entries o.contents) ≤ 4000000000) };
}

impl Opening {
    /// What a life begins with: no key has a value, and clocks begin at 0. Versions 1 and 2 know no other.
    pub fn none(alloc: Global) -> Opening
        ensures { result ≡ no_opening }
    {
        Opening {
            contents: Contents::new(alloc),
            base_stamp: 0,
        }
    }

    /// This map, with clocks that go on from this stamp; `OutOfRange` if the stamp is above 281,474,976,710,655, or more than 4,000,000,000
    /// keys have a value.
    pub fn new(contents: Contents, base_stamp: u64) -> Result<Opening, OutOfRange>
        ensures in_range { IsOk result ↔ ((base_stamp ≤ 281474976710655) × (length (entries contents) ≤ 4000000000)) }
        ensures value { IfOk result (λ o. o ≡ record { contents = contents; base_stamp = base_stamp }) }
    {
        let few = contents.is_within(4_000_000_000);
        if base_stamp > 281_474_976_710_655 || !few {
            return Err(OutOfRange);
        }
        Ok(Opening {
            contents,
            base_stamp,
        })
    }

    /// What the keys have.
    pub fn contents(&self) -> &Contents
        ensures value { result.now ≡ self.now.contents }
        ensures in_range { length (entries self.now.contents) ≤ 4000000000 }
    {
        &self.contents
    }

    /// Makes one listing of the contents, where there are layers (see `Contents::settle`). As it was at an `Err`.
    pub fn settle(&mut self) -> Result<(), AllocError>
        ensures { self.new ≡ self.old }
    {
        self.contents.settle()
    }

    /// What the keys have, and no longer the stamp.
    pub(crate) fn into_contents(self) -> Contents
        ensures { result ≡ self.contents }
    {
        let Opening {
            contents,
            base_stamp: _,
        } = self;
        contents
    }

    /// The same again, which takes what was done of putting layers into the listing with it (see
    /// `Contents::hand_on`). As it was at an `Err`.
    pub fn hand_on(&mut self, alloc: Global) -> Result<Opening, AllocError>
        ensures result { IfOk result (λ o. o ≡ self.old) }
        ensures same { self.new ≡ self.old }
    {
        let contents = self.contents.hand_on(alloc)?;
        Ok(Opening {
            contents,
            base_stamp: self.base_stamp,
        })
    }

    /// The stamp that the clocks go on from.
    pub fn base_stamp(&self) -> u64
        ensures value { result ≡ self.now.base_stamp }
        ensures in_range { result ≤ 281474976710655 }
    {
        self.base_stamp
    }

    /// A copy of the opening.
    pub fn copy(&self, alloc: Global) -> Result<Opening, AllocError>
        ensures { IfOk result (λ o. o ≡ self.now) }
    {
        let contents = self.contents.copy(alloc)?;
        Ok(Opening {
            contents,
            base_stamp: self.base_stamp,
        })
    }

    /// Whether both are one.
    pub fn is_same(&self, other: &Opening) -> bool
        ensures { IsTrue result ↔ (self.now ≡ other.now) }
    {
        self.base_stamp == other.base_stamp && self.contents.is_same(&other.contents)
    }
}
