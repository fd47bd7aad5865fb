//! Heads of scripts of version 3, as far as their lines have been read.

ghost use Rattle.std.specs.Prelude.{◌≡◌, ◌≤◌, Some, None, IfOk, MatchBool};
ghost use Rattle.ep_script.specs.Fits.{IsOfOpening};
ghost use Rattle.ep_script.specs.Heads.{open_head, head_of, after_opening};
ghost use Rattle.ep_script.specs.declared.opening_line.OpeningLine.TheVariants.{Since, Entry as OfKey};

use crate::head::Head;
use crate::opening_entries::OpeningEntries;
use crate::opening_line::OpeningLine;
use crate::script_opening::ScriptOpening;
use ep_base::{Generation, Key, Size, Value};
use std::alloc::{AllocError, Global};
use std::marker::Model;
use std::mem::replace;

/// The head of a script of version 3, as far as its lines have been read.
#[derive(Drop)]
pub(crate) struct OpenHead {
    size: Size,
    generation: Generation,
    base_stamp: Option<u64>,
    entries: OpeningEntries,
}

impl Model for OpenHead {
    ghost use Rattle.std.specs.Prelude.{◌≤◌, IfSome};
    ghost use Rattle.ep_script.specs.Heads as heads;

    ghost Value = { heads.OpenHead };

    ghost view = { λ h. record { faults = h.size; generation = h.generation; base_stamp = h.base_stamp; entries = h.entries } };

    ghost invariant = { λ h. IfSome h.base_stamp (λ s. s ≤ 281474976710654) };
}

impl OpenHead {
    /// The head behind `generation G`.
    pub(crate) fn new(alloc: Global, size: Size, generation: Generation) -> OpenHead
        ensures { result ≡ open_head size generation }
    {
        OpenHead {
            size,
            generation,
            base_stamp: None,
            entries: OpeningEntries::new(alloc),
        }
    }

    /// Takes a line of what the replicas open with. False where it is refused.
    pub(crate) fn take(&mut self, alloc: Global, line: OpeningLine) -> Result<bool, AllocError>
        requires { IsOfOpening line }
        ensures { IfOk result (λ b. MatchBool b (after_opening self.old line ≡ Some self.new) (after_opening self.old line ≡ None)) }
    {
        match line {
            OpeningLine::Since(base_stamp) => Ok(self.take_since(base_stamp)),
            OpeningLine::Entry(key, value) => self.take_entry(alloc, key, value),
        }
    }

    fn take_since(&mut self, base_stamp: u64) -> bool
        requires { base_stamp ≤ 281474976710654 }
        ensures { MatchBool result (after_opening self.old (Since base_stamp) ≡ Some self.new) (after_opening self.old (Since base_stamp) ≡ None) }
    {
        if self.base_stamp.is_some() {
            return false;
        }
        self.base_stamp = Some(base_stamp);
        true
    }

    fn take_entry(&mut self, alloc: Global, key: Key, value: Value) -> Result<bool, AllocError>
        ensures { IfOk result (λ b. MatchBool b (after_opening self.old (OfKey key value) ≡ Some self.new) (after_opening self.old (OfKey key value) ≡ None)) }
    {
        let is_new = self.entries.push(alloc, key, value)?;
        Ok(is_new)
    }

    /// The head, where no line of it follows. Nothing is left in it then.
    pub(crate) fn close(&mut self, alloc: Global) -> Head
        ensures { result ≡ head_of self.old }
    {
        let entries = replace(&mut self.entries, OpeningEntries::new(alloc));
        let opening = ScriptOpening::new(entries.into_items(), self.base_stamp.unwrap_or(0));
        Head::of_generation(self.size, self.generation, opening)
    }
}
