//! What is committed, as a graph.

ghost use Rattle.std.specs.Prelude.{◌≡◌, ◌++◌, OnOk};
ghost use Rattle.std.specs.Option.{option_copied};
ghost use Rattle.ep_rules.specs.Order.{seq_at};
ghost use Rattle.ep_rules.specs.States.{graph_in};
ghost use Rattle.ep_exec.specs.Cut.{left_in};
ghost use Rattle.ep_exec.specs.Walk.{deps_at};

use crate::executed::Executed;
use ep_base::{Attrs, InstanceId};
use ep_space::Space;
use std::alloc::AllocError;

/// What is committed in the instance, without its command.
pub fn attrs_at(space: &Space, instance: InstanceId) -> Option<&Attrs>
    ensures { option_copied result ≡ graph_in space.now.records instance }
{
    match space.committed(instance) {
        Some(decree) => Some(&decree.attrs),
        None => None,
    }
}

/// What the instance depends on: nothing where it is not committed.
pub fn deps_at(space: &Space, instance: InstanceId) -> &[InstanceId]
    ensures { result.now ≡ deps_at (graph_in space.now.records instance) }
{
    match attrs_at(space, instance) {
        Some(attrs) => attrs.deps.as_slice(),
        None => &[],
    }
}

/// Adds what the instance depends on and is not skipped.
pub fn append_left(
    list: &mut Vec<InstanceId>,
    space: &Space,
    skipped: &Executed,
    instance: InstanceId,
) -> Result<(), AllocError>
    ensures { OnOk result (list.new.items ≡ list.old.items ++ deps_at (left_in space.now.records skipped.now.list instance)) }
{
    for dep in deps_at(space, instance) {
        if !skipped.contains(*dep) {
            list.push(*dep)?;
        }
    }
    Ok(())
}

/// Its sequence number, and 0 where it is not committed.
pub fn seq_at(space: &Space, instance: InstanceId) -> u32
    ensures { result ≡ seq_at (graph_in space.now.records instance) }
{
    match attrs_at(space, instance) {
        Some(attrs) => attrs.seq.number(),
        None => 0,
    }
}
