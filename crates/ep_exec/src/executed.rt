//! The instances that a replica has executed.

ghost use Rattle.std.specs.Prelude.{◌≡◌, ◌<◌, ◌≤◌, ◌+◌, ◌↔◌, ℕ, [], ◌∷◌, ◌++◌, IsTrue, IfNone, IfOk, OnOk, length};
ghost use Rattle.std.specs.Vec.{vec_len, vec_capacity};
ghost use Rattle.ep_base.specs.Places.{Has};
ghost use Rattle.ep_exec.specs.Found.{IsLeast};
ghost use Rattle.ep_exec.specs.Kept.{HasRoom};
ghost use Rattle.ep_exec.specs.Marks.{AreMarks};
ghost use Rattle.ep_exec.specs.Ready.{are_in};
ghost use Rattle.ep_space.specs.Entries.{slot};

use crate::marks::{is_marked, slot_of, widen, widen_for};
use crate::ready::lesser;
use ep_base::InstanceId;
use std::alloc::{AllocError, Global};
use std::marker::Model;

/// A set of instances, in the order in which they were added, with a mark for each.
pub struct Executed {
    list: Vec<InstanceId>,
    marks: Vec<bool>,
}

// (by hand, so that no crate above proves again how the parts are dropped)
impl Drop for Executed {
    fn drop(self) {
        let Executed { list, marks } = self;
        drop(list);
        drop(marks);
    }
}

impl Model for Executed {
    ghost use Rattle.std.specs.Prelude.{◌-◌, length};
    ghost use Rattle.std.specs.Vec.{vec_len, vec_capacity};
    ghost use Rattle.ep_exec.specs.Kept.{Kept, kept_code};
    ghost use Rattle.ep_exec.specs.Marks.{AreMarks};

    ghost Value = { Kept };

    ghost coded = { kept_code };

    ghost view = { λ e. record { list = e.list.items; room = vec_capacity e.list - vec_len e.list; marks = length e.marks.items } };

    ghost invariant = { λ e. AreMarks e.list.items e.marks.items };
}

impl Executed {
    /// The empty set.
    pub fn new(alloc: Global) -> Executed
        ensures { result.list ≡ [] }
    {
        Executed {
            list: Vec::new(alloc),
            marks: Vec::new(alloc),
        }
    }

    /// The same set again, with room for no more.
    pub fn duplicate(&self, alloc: Global) -> Result<Executed, AllocError>
        ensures { IfOk result (λ e. e.list ≡ self.now.list) }
    {
        let list = Vec::from_slice(alloc, &self.list)?;
        let marks = Vec::from_slice(alloc, &self.marks)?;
        Ok(Executed { list, marks })
    }

    /// Whether the instance is in the set.
    pub fn contains(&self, instance: InstanceId) -> bool
        ensures { IsTrue result ↔ Has self.now.list instance }
    {
        is_marked(&self.marks, instance)
    }

    /// Whether each of the list is in the set.
    pub(crate) fn contains_all(&self, list: &[InstanceId]) -> bool
        ensures { result ≡ are_in self.now.list list.now }
    {
        for instance in list {
            if !self.contains(*instance) {
                return false;
            }
        }
        true
    }

    /// The least of the list that isn't in the set, or none.
    pub fn least_left(&self, list: &[InstanceId]) -> Option<InstanceId>
        ensures least { IsLeast (λ i. ¬ Has self.now.list i) list.now result }
        ensures all { IfNone result ((i : ℕ) → Has list.now i → Has self.now.list i) }
    {
        let mut best = None;
        for instance in list {
            if !self.contains(*instance) {
                best = Some(lesser(best, *instance));
            }
        }
        best
    }

    /// The instances, in the order in which they were added.
    pub fn as_slice(&self) -> &[InstanceId]
        ensures { result.now ≡ self.now.list }
    {
        self.list.as_slice()
    }

    /// Makes room for these instances.
    pub fn reserve(&mut self, order: &[InstanceId]) -> Result<(), AllocError>
        ensures list { self.new.list ≡ self.old.list }
        ensures room { OnOk result (HasRoom self.new order.now) }
        ensures kept { self.old.room ≤ self.new.room }
    {
        widen_for(&mut self.marks, order)?;
        self.list.reserve(order.len())
    }

    /// Makes room for this instance.
    pub fn reserve_one(&mut self, instance: InstanceId) -> Result<(), AllocError>
        ensures list { self.new.list ≡ self.old.list }
        ensures room { OnOk result ((0 < self.new.room) × (slot instance < self.new.marks)) }
    {
        widen(&mut self.marks, slot_of(instance))?;
        self.list.reserve(1)
    }

    /// Adds an instance, where there is room; one that is in the set stays where it is.
    pub fn add(&mut self, instance: InstanceId)
        requires room { 0 < self.old.room }
        requires slot { slot instance < self.old.marks }
        ensures new { (¬ Has self.old.list instance) → self.new.list ≡ self.old.list ++ instance ∷ [] }
        ensures old { Has self.old.list instance → self.new.list ≡ self.old.list }
        ensures room { self.old.room ≤ self.new.room + 1 }
        ensures marks { self.new.marks ≡ self.old.marks }
    {
        add(&mut self.list, &mut self.marks, instance);
    }
}

/// Adds an instance to both, unless it is there.
fn add(list: &mut Vec<InstanceId>, marks: &mut Vec<bool>, instance: InstanceId)
    requires slot { slot instance < length marks.old.items }
    requires room { vec_len list.old < vec_capacity list.old }
    requires marks { AreMarks list.old.items marks.old.items }
    ensures new { (¬ Has list.old.items instance) → list.new.items ≡ list.old.items ++ instance ∷ [] }
    ensures old { Has list.old.items instance → list.new.items ≡ list.old.items }
    ensures all { length marks.new.items ≡ length marks.old.items }
    ensures capacity { vec_capacity list.new ≡ vec_capacity list.old }
    ensures len { vec_len list.new ≤ vec_len list.old + 1 }
    ensures marks { AreMarks list.new.items marks.new.items }
{
    if is_marked(marks, instance) {
        return;
    }
    list.push_reserved(instance);
    marks[slot_of(instance)] = true;
}
