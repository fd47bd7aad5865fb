//! Which entry was the first, for each instance.

ghost use Rattle.std.specs.Prelude.{◌≡◌, ◌≢◌, ◌≤◌, ◌<◌, ℕ, Some, None, length, slice_index_or, OnOk};
ghost use Rattle.ep_base.specs.Instances.{IsInstance};
ghost use Rattle.ep_space.specs.Entries.{slot};
ghost use Rattle.ep_node.specs.Reporting.{or_other};

use ep_base::InstanceId;
use std::alloc::{AllocError, Global};
use std::marker::Model;

/// Where the instance has its place.
fn slot_of(instance: InstanceId) -> usize
    ensures value { result ≡ slot instance }
    ensures small { result < 72008 }
    ensures named { IsInstance instance }
{
    usize::from(instance.number()) * 8 + usize::from(instance.replica().index())
}

/// Makes at least this many places. What stands there stays.
fn widen(items: &mut Vec<Option<u32>>, count: usize) -> Result<(), AllocError>
    ensures room { OnOk result (count ≤ length items.new.items) }
    ensures same { (place : ℕ) → slice_index_or items.new.items place None ≡ slice_index_or items.old.items place None }
{
    if count <= items.len() {
        return Ok(());
    }
    items.resize(count, None)
}

/// Puts the number at the place, if none stands there.
fn put_first(items: &mut Vec<Option<u32>>, place: usize, number: u32)
    requires { place < length items.old.items }
    ensures here { slice_index_or items.new.items place None ≡ or_other (slice_index_or items.old.items place None) (Some number) }
    ensures others { (n : ℕ) → n ≢ place → slice_index_or items.new.items n None ≡ slice_index_or items.old.items n None }
    ensures room { length items.new.items ≡ length items.old.items }
{
    let first = items[place].unwrap_or(number);
    items[place] = Some(first);
}

/// A table by instances of numbers of entries. It gets places as they are needed.
#[derive(Drop)]
pub(crate) struct FirstEntries {
    items: Vec<Option<u32>>,
}

impl Model for FirstEntries {
    ghost use Rattle.std.specs.Prelude.{ℕ, List, Option};

    ghost Value = { List (Option ℕ) };

    ghost view = { λ f. f.items.items };
}

impl FirstEntries {
    ghost use Rattle.std.specs.Prelude.{◌≡◌, ◌<◌, ℕ, [], Some, length, IfSome, OnOk};
    ghost use Rattle.ep_space.specs.Entries.{slot};
    ghost use Rattle.ep_base.specs.Instances.{IsInstance};
    ghost use Rattle.ep_node.specs.Reporting.{noted, number_for, or_other};

    /// No entries.
    pub(crate) fn new(alloc: Global) -> FirstEntries
        ensures { result ≡ [] }
    {
        FirstEntries {
            items: Vec::new(alloc),
        }
    }

    /// Makes a place for the instance, if there is one.
    pub(crate) fn reserve(&mut self, instance: &Option<InstanceId>) -> Result<(), AllocError>
        ensures room { OnOk result (IfSome instance.now (λ i. slot i < length self.new)) }
        ensures same { (i : ℕ) → noted self.new i ≡ noted self.old i }
    {
        match instance {
            Some(instance) => widen(&mut self.items, slot_of(*instance) + 1),
            None => Ok(()),
        }
    }

    /// The number that the instance has.
    pub(crate) fn get(&self, instance: InstanceId) -> Option<u32>
        ensures { result ≡ noted self.now instance }
    {
        *self.items.get(slot_of(instance))?
    }

    /// Gives the instance this number, if it has none.
    fn note_one(&mut self, instance: InstanceId, number: u32)
        requires { slot instance < length self.old }
        ensures noted { (i : ℕ) → IsInstance i → noted self.new i ≡ or_other (noted self.old i) (number_for (Some instance) number i) }
        ensures room { length self.new ≡ length self.old }
    {
        put_first(&mut self.items, slot_of(instance), number);
    }

    /// Gives the instance, if there is one, this number, if it has none.
    pub(crate) fn note(&mut self, instance: &Option<InstanceId>, number: u32)
        requires { IfSome instance.now (λ i. slot i < length self.old) }
        ensures noted { (i : ℕ) → IsInstance i → noted self.new i ≡ or_other (noted self.old i) (number_for instance.now number i) }
        ensures room { length self.new ≡ length self.old }
    {
        match instance {
            Some(instance) => self.note_one(*instance, number),
            None => {}
        }
    }
}
