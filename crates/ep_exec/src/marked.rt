//! Instances in a list, with a test for each.

ghost use Rattle.std.specs.Prelude.{◌≡◌, ◌↔◌, ◌<◌, ℕ, List, [], ◌∷◌, ◌++◌, IsTrue, OnOk, OnErr, length};
ghost use Rattle.ep_base.specs.Places.{Has};
ghost use Rattle.ep_exec.specs.Marks.{AreMarks};

use crate::level::holds;
use crate::marks::{is_marked, slot_of, widen};
use ep_base::InstanceId;
use std::alloc::{AllocError, Global};
use std::marker::Model;

/// How many instances a list has at most that is looked through one by one.
const FEW: usize = 16;

/// A list of instances that finds at once whether it has one: it looks through a short list, and a longer one has marks, each where the
/// instance's number and leader say. Marks take a byte for every number up to the greatest, times eight.
#[derive(Drop)]
pub struct Marked {
    list: Vec<InstanceId>,
    marks: Vec<bool>,
}

impl Model for Marked {
    ghost use Rattle.std.specs.Prelude.{ℕ, List, length, ◌<◌};
    ghost use Rattle.ep_exec.specs.Marks.{AreMarks};

    ghost Value = { List ℕ };

    ghost view = { λ l. l.list.items };

    ghost invariant = { λ l. 16 < length l.list.items → AreMarks l.list.items l.marks.items };
}

impl Marked {
    pub fn new(alloc: Global) -> Marked
        ensures { result ≡ [] }
    {
        Marked {
            list: Vec::new(alloc),
            marks: Vec::new(alloc),
        }
    }

    /// Whether the list has the instance.
    pub fn contains(&self, instance: InstanceId) -> bool
        ensures { IsTrue result ↔ Has self.now instance }
    {
        if self.list.len() <= FEW {
            holds(&self.list, instance)
        } else {
            is_marked(&self.marks, instance)
        }
    }

    /// Adds an instance at the end.
    pub fn push(&mut self, instance: InstanceId) -> Result<(), AllocError>
        ensures { OnOk result (self.new ≡ self.old ++ instance ∷ []) }
    {
        push(&mut self.list, &mut self.marks, instance)
    }

    /// Adds instances at the end.
    pub fn append(&mut self, more: &[InstanceId]) -> Result<(), AllocError>
        ensures { OnOk result (self.new ≡ self.old ++ more.now) }
    {
        for instance in more {
            self.push(*instance)?;
        }
        Ok(())
    }

    /// The list.
    pub fn as_slice(&self) -> &[InstanceId]
        ensures { result.now ≡ self.now }
    {
        &self.list
    }

    /// The list, without the test.
    pub fn into_vec(self) -> Vec<InstanceId>
        ensures { result.items ≡ self }
    {
        let Marked { list, marks: _ } = self;
        list
    }
}

/// Marks one more instance.
fn mark(marks: &mut Vec<bool>, instance: InstanceId) -> Result<(), AllocError>
    ensures ok { OnOk result ((is : List ℕ) → AreMarks is marks.old.items → AreMarks (is ++ instance ∷ []) marks.new.items) }
    ensures err { OnErr result ((is : List ℕ) → AreMarks is marks.old.items → AreMarks is marks.new.items) }
{
    let slot = slot_of(instance);
    widen(marks, slot)?;
    marks[slot] = true;
    Ok(())
}

/// Marks what is in the list, and nothing else.
fn mark_all(marks: &mut Vec<bool>, list: &[InstanceId]) -> Result<(), AllocError>
    ensures { OnOk result (AreMarks list.now marks.new.items) }
{
    marks.clear();
    for instance in list {
        mark(marks, *instance)?;
    }
    Ok(())
}

/// Makes the marks of a list that gets longer than a few, unless it has them.
fn begin(marks: &mut Vec<bool>, list: &[InstanceId]) -> Result<(), AllocError>
    requires { 16 < length list.now → AreMarks list.now marks.old.items }
    ensures ok { OnOk result (AreMarks list.now marks.new.items) }
    ensures kept { 16 < length list.now → AreMarks list.now marks.new.items }
{
    if list.len() > FEW {
        return Ok(());
    }
    mark_all(marks, list)
}

/// Adds an instance to both.
fn push_marked(
    list: &mut Vec<InstanceId>,
    marks: &mut Vec<bool>,
    instance: InstanceId,
) -> Result<(), AllocError>
    requires { AreMarks list.old.items marks.old.items }
    ensures list { OnOk result (list.new.items ≡ list.old.items ++ instance ∷ []) }
    ensures marks { AreMarks list.new.items marks.new.items }
{
    list.reserve(1)?;
    mark(marks, instance)?;
    list.push_reserved(instance);
    Ok(())
}

/// Adds an instance to the list, and to the marks where it isn't short.
fn push(
    list: &mut Vec<InstanceId>,
    marks: &mut Vec<bool>,
    instance: InstanceId,
) -> Result<(), AllocError>
    requires { 16 < length list.old.items → AreMarks list.old.items marks.old.items }
    ensures list { OnOk result (list.new.items ≡ list.old.items ++ instance ∷ []) }
    ensures marks { 16 < length list.new.items → AreMarks list.new.items marks.new.items }
{
    if list.len() < FEW {
        list.push(instance)?;
        return Ok(());
    }
    begin(marks, list)?;
    push_marked(list, marks, instance)
}
