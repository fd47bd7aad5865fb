//! A table with places for values of instances.

ghost use Rattle.std.specs.Prelude.{◌≡◌, ◌≢◌, ◌≤◌, ◌<◌, ◌++◌, ◌∷◌, [], ℕ, true, false, Some, None, IfOk, OnOk, OnErr, is_some, length, slice_index_or, slice_set};
ghost use Rattle.std.specs.Option.{option_copied};
ghost use Rattle.std.specs.FinSet as set;
ghost use Rattle.std.specs.Map.{keys_of, lookup, set_value};
ghost use Rattle.ep_base.specs.Instances.{number_of, highest_number, IsInstance};
ghost use Rattle.ep_rules.specs.Maps.{none, get};
ghost use Rattle.ep_rules.specs.States.{with_held};
ghost use Rattle.ep_rules.specs.Worlds.{In};
ghost use Rattle.ep_space.specs.Held.{HasPlace};
ghost use Rattle.ep_space.specs.Entries.{flat, same, with_place, held, slot, spot, value_at, AreSpots};
ghost use Rattle.ep_space.specs.Settled.{as_settled, committed_vote};

use ep_base::{InstanceId, Vote, VoteStatus};
use ep_rules::{Duplicate, Record};
use std::alloc::{AllocError, Global};
use std::marker::Model;
use std::mem;

/// The instances that have a place, each with its value, if it has one, in the order in which the places were made.
type Entries<V> = Vec<(InstanceId, Option<V>)>;

/// Values of instances. An instance first gets a place, which takes memory; a value is then written there without.
///
/// No entry is ever taken out, so the index of an instance's entry stays, and is kept: an instance's number and leader say where `spots`
/// says of it: its index and one more, or 0 where it has none. So a look-up makes no hash, and compares nothing.
#[derive(Drop)]
pub struct Table<V> {
    entries: Entries<V>,
    spots: Vec<usize>,
}

impl<V> Model for Table<V> {
    ghost use Rattle.std.specs.Map.{keys_of};
    ghost use Rattle.ep_space.specs.Held.{Held, held_code};

    ghost Value = { Held V };

    ghost coded = { held_code V.code };

    ghost use Rattle.ep_space.specs.Entries.{held, AreSpots};

    ghost view = { λ t. held t.entries.items };

    ghost invariant = { λ t. AreSpots t.spots.items (keys_of t.entries.items) };
}

impl<V: Drop> Table<V> {
    /// No values, and no places.
    pub fn new(alloc: Global) -> Table<V>
        ensures { result ≡ record { held = none; places = set.empty } }
    {
        Table {
            entries: Vec::new(alloc),
            spots: Vec::new(alloc),
        }
    }

    /// The instance's value, if it has one.
    pub fn get(&self, id: InstanceId) -> Option<&V>
        ensures { option_copied result ≡ get self.now.held id }
    {
        value_at(&self.entries, spot_of(&self.spots, id))
    }

    /// The instances that have a place, in the order in which these were made, each with its value, if it has one.
    pub(crate) fn entries(&self) -> &[(InstanceId, Option<V>)]
        ensures { (i : ℕ) (x : V) → (get self.now.held i ≡ Some x → In (i, Some x) result.now) × (In (i, Some x) result.now → get self.now.held i ≡ Some x) }
    {
        self.entries.as_slice()
    }

    /// A number above which no instance has a value.
    pub(crate) fn highest(&self) -> u16
        ensures bounded { result ≤ highest_number }
        ensures none { (i : ℕ) → IsInstance i → result < number_of i → get self.now.held i ≡ None }
    {
        highest_in(&self.spots)
    }

    /// Makes a place for the instance, if it has none. Nothing else takes memory in the table.
    #[inline(always)]
    pub fn reserve(&mut self, id: InstanceId) -> Result<(), AllocError>
        ensures ok { OnOk result (self.new ≡ record { held = self.old.held; places = set.insert self.old.places id }) }
        ensures place { OnOk result (HasPlace self.new.places id) }
        ensures err { OnErr result (self.new ≡ self.old) }
    {
        add_place(&mut self.entries, &mut self.spots, id)
    }

    /// Writes this value, or none, at the instance's place, and gives what was there. It takes no memory.
    #[inline(always)]
    pub fn put_back(&mut self, id: InstanceId, value: Option<V>) -> Option<V>
        requires { HasPlace self.old.places id }
        ensures old { result ≡ get self.old.held id }
        ensures new { self.new ≡ record { held = with_held self.old.held id value; places = self.old.places } }
    {
        let spot = spot_of(&self.spots, id);
        replace(&mut self.entries, spot, id, value)
    }

    /// Writes this value, or none, at the instance's place. It takes no memory.
    #[inline(always)]
    pub fn write(&mut self, id: InstanceId, value: Option<V>)
        requires { HasPlace self.old.places id }
        ensures { self.new ≡ record { held = with_held self.old.held id value; places = self.old.places } }
    {
        let _ = self.put_back(id, value);
    }

    /// The instance has no value from now on. It takes no memory, and needs no place.
    pub fn clear(&mut self, id: InstanceId)
        ensures { self.new ≡ record { held = with_held self.old.held id None; places = self.old.places } }
    {
        if self.has_place(id) {
            self.write(id, None);
        }
    }

    /// Whether the instance has a place.
    pub(crate) fn has_place(&self, id: InstanceId) -> bool
        ensures value { result ≡ set.contains self.now.places id }
        ensures none { result ≡ false → get self.now.held id ≡ None }
    {
        spot_of(&self.spots, id) != 0
    }
}

impl Table<Record> {
    /// Commits what the instance's record voted for, if it voted, at its place. It takes no memory.
    #[inline(always)]
    pub(crate) fn settle(&mut self, id: InstanceId)
        requires { HasPlace self.old.places id }
        ensures { self.new ≡ record { held = with_held self.old.held id (as_settled (get self.old.held id)); places = self.old.places } }
    {
        let spot = spot_of(&self.spots, id);
        settle_at(&mut self.entries, spot, id)
    }
}

impl<V: Duplicate> Table<V> {
    /// A copy of the table.
    pub fn duplicate(&self, alloc: Global) -> Result<Table<V>, AllocError>
        ensures { IfOk result (λ t. t ≡ self.now) }
    {
        let entries = duplicates(&self.entries, alloc)?;
        let spots = Vec::from_slice(alloc, &self.spots)?;
        Ok(Table { entries, spots })
    }
}

/// A copy of the entries.
fn duplicates<V: Duplicate>(entries: &Entries<V>, alloc: Global) -> Result<Entries<V>, AllocError>
    ensures { IfOk result (λ same. same.items ≡ entries.now.items) }
{
    let mut same = Vec::with_capacity(alloc, entries.len())?;
    for (id, value) in entries.iter() {
        let value = duplicate_of(value, alloc)?;
        add_entry(&mut same, *id, value)?;
    }
    Ok(same)
}

/// An entry more.
fn add_entry<V: Drop>(
    entries: &mut Entries<V>,
    id: InstanceId,
    value: Option<V>,
) -> Result<(), AllocError>
    ensures ok { OnOk result (entries.new.items ≡ entries.old.items ++ (id, value) ∷ []) }
    ensures err { OnErr result (entries.new.items ≡ entries.old.items) }
{
    entries.push((id, value))?;
    Ok(())
}

/// A copy of the value, if there is one.
fn duplicate_of<V: Duplicate>(value: &Option<V>, alloc: Global) -> Result<Option<V>, AllocError>
    ensures { IfOk result (λ same. same ≡ value.now) }
{
    match value {
        None => Ok(None),
        Some(value) => Ok(Some(value.duplicate(alloc)?)),
    }
}

/// Where a list by instances names this one.
pub(crate) fn slot_of(id: InstanceId) -> usize
    ensures value { result ≡ slot id }
    ensures small { result < 72008 }
    ensures in_range { IsInstance id }
{
    usize::from(id.number()) * 8 + usize::from(id.replica().index())
}

/// The index of the instance's entry, and one more; 0 where it has none.
fn spot_of(spots: &[usize], id: InstanceId) -> usize
    ensures value { result ≡ slice_index_or spots.now (slot id) 0 }
    ensures in_range { IsInstance id }
{
    let slot = slot_of(id);
    if slot < spots.len() { spots[slot] } else { 0 }
}

/// A number above which no instance has a slot.
fn highest_in(spots: &[usize]) -> u16
    ensures bounded { result ≤ highest_number }
    ensures none { (i : ℕ) → IsInstance i → result < number_of i → length spots.now ≤ slot i }
{
    let number = spots.len() / 8;
    if number < 9000 {
        number as u16
    } else {
        InstanceId::HIGHEST_NUMBER
    }
}

fn value_at<V>(entries: &Entries<V>, at: usize) -> Option<&V>
    requires { at ≤ length entries.now.items }
    ensures { option_copied result ≡ flat (value_at entries.now.items at) }
{
    if at == 0 {
        return None;
    }
    entries[at - 1].1.as_ref()
}

#[inline(always)]
fn add_place<V: Drop>(
    entries: &mut Entries<V>,
    spots: &mut Vec<usize>,
    id: InstanceId,
) -> Result<(), AllocError>
    requires { AreSpots spots.old.items (keys_of entries.old.items) }
    ensures ok { OnOk result (entries.new.items ≡ with_place entries.old.items id) }
    ensures err { OnErr result (entries.new.items ≡ entries.old.items) }
    ensures spots { AreSpots spots.new.items (keys_of entries.new.items) }
{
    if spot_of(spots, id) != 0 {
        return Ok(());
    }
    widen(spots, slot_of(id))?;
    add_entry(entries, id, None)?;
    spots[slot_of(id)] = entries.len();
    Ok(())
}

/// Makes the list long enough to have this slot, by zeros.
fn widen(spots: &mut Vec<usize>, slot: usize) -> Result<(), AllocError>
    requires { slot < 72008 }
    ensures slot { OnOk result (slot < length spots.new.items) }
    ensures same { (k : ℕ) → slice_index_or spots.new.items k 0 ≡ slice_index_or spots.old.items k 0 }
{
    if slot < spots.len() {
        return Ok(());
    }
    spots.resize(slot + 64, 0)
}

#[inline(always)]
fn replace<V: Drop>(
    entries: &mut Entries<V>,
    at: usize,
    id: InstanceId,
    value: Option<V>,
) -> Option<V>
    requires spot { at ≡ spot id (keys_of entries.old.items) }
    requires there { 0 < at }
    ensures old { Some result ≡ lookup (same id) entries.old.items }
    ensures new { entries.new.items ≡ set_value (same id) entries.old.items value }
{
    mem::replace(&mut entries[at - 1].1, value)
}

fn settle_at(entries: &mut Entries<Record>, at: usize, id: InstanceId)
    requires spot { at ≡ spot id (keys_of entries.old.items) }
    requires there { 0 < at }
    ensures { entries.new.items ≡ set_value (same id) entries.old.items (as_settled (flat (lookup (same id) entries.old.items))) }
{
    settle(&mut entries[at - 1].1)
}

#[inline(always)]
fn settle(written: &mut Option<Record>)
    ensures { written.new ≡ as_settled written.old }
{
    match written {
        Some(record) => settle_vote(&mut record.vote),
        None => (),
    }
}

fn settle_vote(vote: &mut Option<Vote>)
    ensures { vote.new ≡ committed_vote vote.old }
{
    match vote {
        Some(vote) => vote.status = VoteStatus::Committed,
        None => (),
    }
}
