//! The components that a root reaches, by one walk with a stack of its own.
//!
//! The path is a stack of levels. One turn takes the next dependency of the top level: one that is in a closed component is dropped,
//! one on the path joins the levels down to its own, and any other begins a level. A level with nothing left to follow is a component.
//! What is skipped is not followed.

ghost use Rattle.std.specs.Prelude.{◌≡◌, ◌⊎◌, ◌∷◌, [], ◌++◌, IfOk, OnOk};
ghost use Rattle.ep_base.specs.Places.{Has};
ghost use Rattle.ep_exec.specs.Cut.{left_in};
ghost use Rattle.ep_exec.specs.Walk.{flat, stack, members_of, fresh, Follows, Sees, lists, AreComponents};

use crate::executed::Executed;
use crate::graph::append_left;
use crate::level::{Level, merge};
use crate::marked::Marked;
use ep_base::InstanceId;
use ep_space::Space;
use std::alloc::{AllocError, Global};

/// A walk under way: what is in closed components, what was met, and the path.
#[derive(Drop)]
struct Walk {
    alloc: Global,
    closed: Marked,
    seen: Marked,
    path: Vec<Level>,
}

/// Puts a level of one instance on the path.
fn enter(
    alloc: Global,
    space: &Space,
    skipped: &Executed,
    path: &mut Vec<Level>,
    instance: InstanceId,
) -> Result<(), AllocError>
    ensures { OnOk result (stack path.new.items ≡ fresh (left_in space.now.records skipped.now.list) instance ∷ stack path.old.items) }
{
    let mut members = Marked::new(alloc);
    members.push(instance)?;
    let mut edges = Vec::new(alloc);
    append_left(&mut edges, space, skipped, instance)?;
    path.push(Level { members, edges })?;
    Ok(())
}

/// Follows a dependency of the top level.
fn follow(
    walk: &mut Walk,
    space: &Space,
    skipped: &Executed,
    top: Level,
    instance: InstanceId,
) -> Result<(), AllocError>
    requires { Sees walk.old.seen walk.old.closed (flat top ∷ stack walk.old.path.items) }
    ensures path { OnOk result (Follows (left_in space.now.records skipped.now.list) walk.old.closed (flat top) (stack walk.old.path.items) instance (stack walk.new.path.items)) }
    ensures seen { OnOk result (Sees walk.new.seen walk.old.closed (stack walk.new.path.items)) }
    ensures closed { OnOk result (walk.new.closed ≡ walk.old.closed) }
{
    if walk.closed.contains(instance) {
        walk.path.push(top)?;
        return Ok(());
    }
    if walk.seen.contains(instance) {
        merge(&mut walk.path, top, instance)?;
        return Ok(());
    }
    walk.path.push(top)?;
    enter(walk.alloc, space, skipped, &mut walk.path, instance)?;
    walk.seen.push(instance)?;
    Ok(())
}

/// Closes a component.
fn close(
    closed: &mut Marked,
    found: &mut Vec<Vec<InstanceId>>,
    members: Marked,
) -> Result<(), AllocError>
    ensures closed { OnOk result (closed.new ≡ closed.old ++ members) }
    ensures found { OnOk result (lists found.new.items ≡ lists found.old.items ++ members ∷ []) }
{
    closed.append(members.as_slice())?;
    found.push(members.into_vec())?;
    Ok(())
}

/// A root, and the components of what it reaches.
#[derive(Drop)]
pub struct Reach {
    pub root: InstanceId,
    pub components: Vec<Vec<InstanceId>>,
}

/// The components of what the root reaches by what is not skipped, each after those that it depends on.
pub fn components(
    alloc: Global,
    space: &Space,
    skipped: &Executed,
    root: InstanceId,
) -> Result<Vec<Vec<InstanceId>>, AllocError>
    ensures { IfOk result (λ v. AreComponents (left_in space.now.records skipped.now.list) root (lists v.items)) }
{
    let mut walk = Walk {
        alloc,
        closed: Marked::new(alloc),
        seen: Marked::new(alloc),
        path: Vec::new(alloc),
    };
    let mut found = Vec::new(alloc);
    enter(alloc, space, skipped, &mut walk.path, root)?;
    walk.seen.push(root)?;
    while let Some(top) = walk.path.pop() {
        let Level { members, mut edges } = top;
        match edges.pop() {
            None => close(&mut walk.closed, &mut found, members)?,
            Some(instance) => {
                let top = Level { members, edges };
                follow(&mut walk, space, skipped, top, instance)?;
            }
        }
    }
    Ok(found)
}
