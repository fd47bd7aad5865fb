//! What blocks own instances.

ghost use Rattle.std.specs.Prelude.{◌≡◌, ◌≢◌, ◌⊎◌, ◌≤◌, ◌<◌, ◌+◌, ℕ, [], None, true, false, length, slice_index_or, OnOk, IfSome, IsTrue, IsFalse};
ghost use Rattle.ep_base.specs.Instances.{highest_number};
ghost use Rattle.ep_replica.specs.Blockers.{is_due, blocker_of, is_flagged, Wakes};
ghost use Rattle.ep_space.specs.Entries.{slot};
ghost use Rattle.ep_replica.specs.Spans.{IsWithin};

use crate::due_numbers::DueNumbers;
use crate::flags::widen;
use crate::span::Span;
use ep_base::InstanceId;
use std::alloc::{AllocError, Global};
use std::marker::Model;

/// Where the instance's flag is.
fn slot_of(instance: InstanceId) -> usize
    ensures value { result ≡ slot instance }
    ensures small { result < 72008 }
{
    usize::from(instance.number()) * 8 + usize::from(instance.replica().index())
}

/// Whether the instance was ever a blocker.
fn is_awaited(awaited: &[bool], instance: InstanceId) -> bool
    ensures { result ≡ is_flagged awaited.now instance }
{
    awaited.get(slot_of(instance)).copied().unwrap_or(false)
}

/// The instance is a blocker.
fn await_one(awaited: &mut Vec<bool>, instance: InstanceId) -> Result<(), AllocError>
    ensures here { OnOk result (is_flagged awaited.new.items instance ≡ true) }
    ensures more { (i : ℕ) → is_flagged awaited.old.items i ≡ true → is_flagged awaited.new.items i ≡ true }
{
    let slot = slot_of(instance);
    widen(awaited, slot + 1)?;
    awaited[slot] = true;
    Ok(())
}

/// The instance, if there is one, is a blocker.
fn await_it(awaited: &mut Vec<bool>, blocker: &Option<InstanceId>) -> Result<(), AllocError>
    ensures here { OnOk result (IfSome blocker.now (λ i. is_flagged awaited.new.items i ≡ true)) }
    ensures more { (i : ℕ) → is_flagged awaited.old.items i ≡ true → is_flagged awaited.new.items i ≡ true }
{
    match blocker {
        Some(instance) => await_one(awaited, *instance),
        None => Ok(()),
    }
}

/// What the instance blocks at this number is due. Answers whether the number has another blocker.
fn wake_one(
    items: &mut Vec<Option<InstanceId>>,
    number: u16,
    instance: InstanceId,
    due: &mut DueNumbers,
) -> bool
    requires room { length items.old.items ≤ length due.old }
    requires low { number ≤ highest_number }
    ensures here { Wakes instance (blocker_of items.old.items number) (blocker_of items.new.items number) (is_due due.new number) }
    ensures others { (n : ℕ) → n ≢ number → blocker_of items.new.items n ≡ blocker_of items.old.items n }
    ensures left { IsFalse result → blocker_of items.new.items number ≡ None }
    ensures more { (n : ℕ) → is_due due.old n ≡ true → is_due due.new n ≡ true }
    ensures room { (length items.new.items ≡ length items.old.items) × (length due.new ≡ length due.old) }
{
    if number as usize >= items.len() {
        return false;
    }
    let Some(blocker) = items[number as usize] else {
        return false;
    };
    if blocker != instance {
        return true;
    }
    items[number as usize] = None;
    due.add(number);
    false
}

/// What the instance blocks at these numbers is due. Returns a span with all of them that still have a blocker.
fn wake_within(
    items: &mut Vec<Option<InstanceId>>,
    span: Span,
    instance: InstanceId,
    due: &mut DueNumbers,
) -> Span
    requires room { length items.old.items ≤ length due.old }
    ensures each { (n : ℕ) → IsWithin span n → n ≤ highest_number → Wakes instance (blocker_of items.old.items n) (blocker_of items.new.items n) (is_due due.new n) × (blocker_of items.new.items n ≢ None → IsWithin result n) }
    ensures others { (n : ℕ) → ¬ (IsWithin span n × (n ≤ highest_number)) → blocker_of items.new.items n ≡ blocker_of items.old.items n }
    ensures more { (n : ℕ) → is_due due.old n ≡ true → is_due due.new n ≡ true }
    ensures room { (length items.new.items ≡ length items.old.items) × (length due.new ≡ length due.old) }
{
    let mut left = Span::new();
    for number in span.first..span.end.min(9001) {
        if wake_one(items, number, instance, due) {
            left = left.with(number);
        }
    }
    left
}

/// For each number of an own instance, one that it waits for, if that is known. It gets places as they are needed.
#[derive(Drop)]
pub(crate) struct Blockers {
    items: Vec<Option<InstanceId>>,
    /// No other number has a blocker.
    span: Span,
    /// Whether an instance was ever a blocker, each where its number and its leader say.
    awaited: Vec<bool>,
}

impl Model for Blockers {
    ghost use Rattle.std.specs.Prelude.{◌≡◌, ◌≢◌, ◌≤◌, ℕ, Option, None, IfSome, true, List};
    ghost use Rattle.ep_base.specs.Instances.{highest_number};
    ghost use Rattle.ep_replica.specs.Blockers.{blocker_of, is_flagged};
    ghost use Rattle.ep_replica.specs.Spans.{IsWithin};

    ghost Value = { List (Option ℕ) };

    ghost view = { λ b. b.items.items };

    ghost invariant = { λ b. ((n : ℕ) → blocker_of b.items.items n ≢ None → IsWithin b.span n × (n ≤ highest_number)) × ((n : ℕ) → IfSome (blocker_of b.items.items n) (λ i. is_flagged b.awaited.items i ≡ true)) };
}

impl Blockers {
    /// No blockers.
    pub(crate) fn new(alloc: Global) -> Blockers
        ensures { result ≡ [] }
    {
        Blockers {
            items: Vec::new(alloc),
            span: Span::new(),
            awaited: Vec::new(alloc),
        }
    }

    /// Makes a place for each number up to this one.
    #[inline(always)]
    pub(crate) fn reserve(&mut self, top: u16) -> Result<(), AllocError>
        ensures room { (length self.new ≤ length self.old) ⊎ (length self.new ≤ top + 1) }
        ensures same { (n : ℕ) → blocker_of self.new n ≡ blocker_of self.old n }
    {
        for _ in self.items.len()..usize::from(top) + 1 {
            self.items.push(None)?;
        }
        Ok(())
    }

    /// What blocks the own instance of this number, if that is known.
    pub(crate) fn get(&self, number: u16) -> Option<InstanceId>
        ensures { result ≡ blocker_of self.now number }
    {
        *self.items.get(number as usize)?
    }

    /// Sets what blocks the own instance of this number, if it has a place and memory doesn't run out, and returns whether it did.
    pub(crate) fn set(&mut self, number: u16, blocker: Option<InstanceId>) -> bool
        requires { number ≤ highest_number }
        ensures here { IsTrue result → blocker_of self.new number ≡ blocker }
        ensures others { (n : ℕ) → n ≢ number → blocker_of self.new n ≡ blocker_of self.old n }
        ensures unset { IsFalse result → self.new ≡ self.old }
        ensures room { length self.new ≡ length self.old }
    {
        if number as usize >= self.items.len() {
            return false;
        }
        let Ok(()) = await_it(&mut self.awaited, &blocker) else {
            return false;
        };
        self.items[number as usize] = blocker;
        self.span = self.span.with(number);
        true
    }

    /// What this instance blocked is due.
    pub(crate) fn wake(&mut self, instance: InstanceId, due: &mut DueNumbers)
        requires room { length self.old ≤ length due.old }
        ensures each { (n : ℕ) → Wakes instance (blocker_of self.old n) (blocker_of self.new n) (is_due due.new n) }
        ensures more { (n : ℕ) → is_due due.old n ≡ true → is_due due.new n ≡ true }
        ensures room { (length self.new ≡ length self.old) × (length due.new ≡ length due.old) }
    {
        if !is_awaited(self.awaited.as_slice(), instance) {
            return;
        }
        self.span = wake_within(&mut self.items, self.span, instance, due);
    }
}
