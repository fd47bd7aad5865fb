//! The search for an instance that a root reaches and that isn't committed.
//!
//! The walk goes by a list of what is seen and a list of dependencies to follow, all of them committed. It ends at the first instance met
//! that isn't. What was executed is not followed.

ghost use Rattle.std.specs.Prelude.{◌≡◌, IfOk};
ghost use Rattle.ep_rules.specs.Order.{IsClosed};
ghost use Rattle.ep_rules.specs.States.{graph_in};
ghost use Rattle.ep_exec.specs.Missing.{IsMissing, is_lacking, first_lacking, Visits};

use crate::executed::Executed;
use crate::graph::{append_left, attrs_at, deps_at};
use crate::marked::Marked;
use crate::planning::is_missing;
use ep_base::InstanceId;
use ep_space::Space;
use std::alloc::{AllocError, Global};

/// Whether the instance was not executed, and nothing is committed there.
fn is_lacking(space: &Space, executed: &Executed, instance: InstanceId) -> bool
    ensures { result ≡ is_lacking (graph_in space.now.records) executed.now.list instance }
{
    !executed.contains(instance) && attrs_at(space, instance).is_none()
}

/// The first instance of a list that was not executed and is not committed.
fn first_lacking(space: &Space, executed: &Executed, list: &[InstanceId]) -> Option<InstanceId>
    ensures { result ≡ first_lacking (graph_in space.now.records) executed.now.list list.now }
{
    for instance in list {
        if is_lacking(space, executed, *instance) {
            return Some(*instance);
        }
    }
    None
}

/// Looks at what an instance depends on: the first dependency that isn't committed; or all of them are to be followed, unless they were.
fn visit(
    space: &Space,
    executed: &Executed,
    seen: &mut Marked,
    edges: &mut Vec<InstanceId>,
    instance: InstanceId,
) -> Result<Option<InstanceId>, AllocError>
    ensures { IfOk result (λ o. Visits (graph_in space.now.records) executed.now.list seen.old edges.old.items instance o seen.new edges.new.items) }
{
    if seen.contains(instance) {
        return Ok(None);
    }
    let lacking = first_lacking(space, executed, deps_at(space, instance));
    if lacking.is_some() {
        return Ok(lacking);
    }
    seen.push(instance)?;
    append_left(edges, space, executed, instance)?;
    Ok(None)
}

/// An instance that the root reaches and that is not committed, the first one met; none where all that it reaches is committed.
///
/// What was executed is closed, and is not walked through.
pub fn missing(
    alloc: Global,
    space: &Space,
    executed: &Executed,
    root: InstanceId,
) -> Result<Option<InstanceId>, AllocError>
    requires closed { IsClosed (graph_in space.now.records) executed.now.list }
    ensures { IfOk result (λ o. IsMissing (graph_in space.now.records) root o) }
{
    if is_missing(space, root) {
        return Ok(Some(root));
    }
    let mut seen = Marked::new(alloc);
    let mut edges = Vec::new(alloc);
    edges.push(root)?;
    while let Some(instance) = edges.pop() {
        let found = visit(space, executed, &mut seen, &mut edges, instance)?;
        if found.is_some() {
            return Ok(found);
        }
    }
    Ok(None)
}
