//! Marks of instances, each where its number and its leader say.

ghost use Rattle.std.specs.Prelude.{◌≡◌, ◌≤◌, ◌<◌, ◌+◌, ◌*◌, ℕ, OnOk, false, length, slice_index_or};
ghost use Rattle.std.specs.List.{AllByRecursion};
ghost use Rattle.ep_base.specs.Instances.{highest_number, IsInstance};
ghost use Rattle.ep_space.specs.Entries.{slot};

use ep_base::InstanceId;
use std::alloc::AllocError;

/// Where the instance's mark is.
pub fn slot_of(instance: InstanceId) -> usize
    ensures value { result ≡ slot instance }
    ensures small { result < 72008 }
    ensures in_range { IsInstance instance }
{
    usize::from(instance.number()) * 8 + usize::from(instance.replica().index())
}

/// Whether the instance is marked.
pub fn is_marked(marks: &[bool], instance: InstanceId) -> bool
    ensures value { result ≡ slice_index_or marks.now (slot instance) false }
    ensures in_range { IsInstance instance }
{
    let slot = slot_of(instance);
    if slot < marks.len() {
        marks[slot]
    } else {
        false
    }
}

/// Makes the marks long enough to have this slot. What is marked stays so.
pub fn widen(marks: &mut Vec<bool>, slot: usize) -> Result<(), AllocError>
    requires { slot < 72008 }
    ensures slot { OnOk result (slot < length marks.new.items) }
    ensures same { (k : ℕ) → slice_index_or marks.new.items k false ≡ slice_index_or marks.old.items k false }
    ensures longer { length marks.old.items ≤ length marks.new.items }
{
    if slot < marks.len() {
        return Ok(());
    }
    marks.resize(slot + 1, false)
}

/// A number that none of the instances' numbers is above.
fn top_number(list: &[InstanceId]) -> u16
    ensures top { AllByRecursion (λ i. slot i ≤ result * 8 + 6) list.now }
    ensures small { result ≤ highest_number }
{
    let mut top = 0;
    for instance in list {
        top = instance.number_at_least(top);
    }
    top
}

/// Makes the marks long enough for all of these instances. What is marked stays so.
pub fn widen_for(marks: &mut Vec<bool>, list: &[InstanceId]) -> Result<(), AllocError>
    ensures slots { OnOk result (AllByRecursion (λ i. slot i < length marks.new.items) list.now) }
    ensures same { (k : ℕ) → slice_index_or marks.new.items k false ≡ slice_index_or marks.old.items k false }
    ensures longer { length marks.old.items ≤ length marks.new.items }
{
    let top = top_number(list) as usize;
    widen(marks, top * 8 + 6)?;
    Ok(())
}
