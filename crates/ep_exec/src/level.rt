//! A path of components that are not closed yet.

ghost use Rattle.std.specs.Prelude.{◌≡◌, ◌++◌, ◌↔◌, IsTrue, IfOk, OnOk};
ghost use Rattle.ep_base.specs.Places.{place, Has};
ghost use Rattle.ep_exec.specs.Walk.{flat, pooled, joined, merged, stack};

use crate::marked::Marked;
use ep_base::InstanceId;
use std::alloc::AllocError;

/// Instances on the path that reach each other, and the dependencies still to follow.
#[derive(Drop)]
pub struct Level {
    pub members: Marked,
    pub edges: Vec<InstanceId>,
}

/// Adds instances at a list's end.
pub fn append(list: &mut Vec<InstanceId>, more: &[InstanceId]) -> Result<(), AllocError>
    ensures { OnOk result (list.new.items ≡ list.old.items ++ more.now) }
{
    list.extend_from_slice(more)?;
    Ok(())
}

/// The place of the instance in the list, or the list's length.
fn place_of(list: &[InstanceId], instance: InstanceId) -> usize
    ensures { result ≡ place list.now instance }
{
    for (place, other) in list.iter().enumerate() {
        if *other == instance {
            return place;
        }
    }
    list.len()
}

/// Whether the list has the instance.
pub fn holds(list: &[InstanceId], instance: InstanceId) -> bool
    ensures { IsTrue result ↔ Has list.now instance }
{
    place_of(list, instance) < list.len()
}

/// Both lists, the shorter one added to the longer.
fn pool(first: Vec<InstanceId>, second: Vec<InstanceId>) -> Result<Vec<InstanceId>, AllocError>
    ensures { IfOk result (λ v. v.items ≡ pooled first.items second.items) }
{
    if first.len() < second.len() {
        extended(second, first)
    } else {
        extended(first, second)
    }
}

/// A list with another one at its end.
fn extended(list: Vec<InstanceId>, more: Vec<InstanceId>) -> Result<Vec<InstanceId>, AllocError>
    ensures { IfOk result (λ v. v.items ≡ list.items ++ more.items) }
{
    let mut list = list;
    append(&mut list, &more)?;
    Ok(list)
}

/// The same with their tests.
fn pool_marked(first: Marked, second: Marked) -> Result<Marked, AllocError>
    ensures { IfOk result (λ l. l ≡ pooled first second) }
{
    if first.as_slice().len() < second.as_slice().len() {
        extended_marked(second, first)
    } else {
        extended_marked(first, second)
    }
}

/// A list with another one at its end, with its test.
fn extended_marked(list: Marked, more: Marked) -> Result<Marked, AllocError>
    ensures { IfOk result (λ l. l ≡ list ++ more) }
{
    let mut list = list;
    list.append(more.as_slice())?;
    Ok(list)
}

/// One level in place of two.
fn join(below: Level, top: Level) -> Result<Level, AllocError>
    ensures { IfOk result (λ l. flat l ≡ joined (flat below) (flat top)) }
{
    let Level { members, edges } = below;
    let Level {
        members: more,
        edges: others,
    } = top;
    let members = pool_marked(members, more)?;
    let edges = pool(edges, others)?;
    Ok(Level { members, edges })
}

/// Puts the level on the path, with the levels down to that of the instance joined to it.
pub fn merge(path: &mut Vec<Level>, top: Level, instance: InstanceId) -> Result<(), AllocError>
    ensures { OnOk result (stack path.new.items ≡ merged (flat top) (stack path.old.items) instance) }
{
    let mut top = top;
    while !top.members.contains(instance) {
        match path.pop() {
            Some(below) => top = join(below, top)?,
            None => {
                path.push(top)?;
                return Ok(());
            }
        }
    }
    path.push(top)?;
    Ok(())
}
