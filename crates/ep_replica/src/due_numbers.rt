//! The own instances that are due to be tried.

ghost use Rattle.std.specs.Prelude.{◌≡◌, ◌≢◌, ◌≤◌, ◌<◌, ℕ, [], true, length, IfOk, OnOk};
ghost use Rattle.ep_base.specs.Instances.{highest_number};
ghost use Rattle.ep_replica.specs.Blockers.{is_due};

use crate::flags::widen;
use crate::span::Span;
use std::alloc::{AllocError, Global};
use std::marker::Model;

/// The least number from this one on whose flag is set, if it is before the end; else 9,001.
fn first_set(flags: &[bool], first: u16, end: u16) -> u16
    requires { first ≤ 9001 }
    ensures range { (first ≤ result) × (result ≤ 9001) }
    ensures least { (n : ℕ) → first ≤ n → n < result → n < end → is_due flags.now n ≢ true }
{
    for number in first..end.min(9001) {
        if is_set(flags, number) {
            return number;
        }
    }
    9001
}

/// Whether the number's flag is set.
fn is_set(flags: &[bool], number: u16) -> bool
    ensures { result ≡ is_due flags.now number }
{
    flags.get(number as usize).copied().unwrap_or(false)
}

/// A set of numbers of own instances. It gets places as they are needed.
#[derive(Drop)]
pub(crate) struct DueNumbers {
    flags: Vec<bool>,
    /// No other number is in the set.
    span: Span,
}

impl Model for DueNumbers {
    ghost use Rattle.std.specs.Prelude.{◌≡◌, ℕ, Bool, true, List};
    ghost use Rattle.ep_replica.specs.Blockers.{is_due};
    ghost use Rattle.ep_replica.specs.Spans.{IsWithin};

    ghost Value = { List Bool };

    ghost view = { λ d. d.flags.items };

    ghost invariant = { λ d. (n : ℕ) → is_due d.flags.items n ≡ true → IsWithin d.span n };
}

impl DueNumbers {
    /// No numbers.
    pub(crate) fn new(alloc: Global) -> DueNumbers
        ensures { result ≡ [] }
    {
        DueNumbers {
            flags: Vec::new(alloc),
            span: Span::new(),
        }
    }

    /// All numbers up to this one.
    pub(crate) fn all(alloc: Global, top: u16) -> Result<DueNumbers, AllocError>
        requires { top ≤ highest_number }
        ensures { IfOk result (λ d. (n : ℕ) → 1 ≤ n → n ≤ top → is_due d n ≡ true) }
    {
        let mut due = DueNumbers::new(alloc);
        due.reserve(top)?;
        for number in 1..top + 1 {
            due.add(number);
        }
        Ok(due)
    }

    /// Makes a place for each number up to this one.
    #[inline(always)]
    pub(crate) fn reserve(&mut self, top: u16) -> Result<(), AllocError>
        ensures room { OnOk result (top < length self.new) }
        ensures longer { length self.old ≤ length self.new }
        ensures same { (n : ℕ) → is_due self.new n ≡ is_due self.old n }
    {
        widen(&mut self.flags, usize::from(top) + 1)
    }

    /// The number is due. It takes no memory.
    pub(crate) fn add(&mut self, number: u16)
        requires room { number < length self.old }
        requires low { number ≤ highest_number }
        ensures here { is_due self.new number ≡ true }
        ensures more { (n : ℕ) → is_due self.old n ≡ true → is_due self.new n ≡ true }
        ensures room { length self.new ≡ length self.old }
    {
        self.span = self.span.with(number);
        self.flags[number as usize] = true;
    }

    /// The number isn't due any more.
    pub(crate) fn remove(&mut self, number: u16)
        ensures others { (n : ℕ) → n ≢ number → is_due self.old n ≡ true → is_due self.new n ≡ true }
        ensures room { length self.new ≡ length self.old }
    {
        if (number as usize) < self.flags.len() {
            self.flags[number as usize] = false;
            self.span = self.span.without(number);
        }
    }

    /// The least due number that isn't below this one; 9,001 if there is none.
    pub(crate) fn next(&mut self, from: u16) -> u16
        requires { from ≤ 9001 }
        ensures range { (from ≤ result) × (result ≤ 9001) }
        ensures least { (n : ℕ) → from ≤ n → n < result → is_due self.old n ≢ true }
        ensures same { self.new ≡ self.old }
    {
        let first = from.max(self.span.first).min(9001);
        let found = first_set(self.flags.as_slice(), first, self.span.end);
        if from <= self.span.first {
            self.span.first = found;
        }
        found
    }
}
