//! The components that are ready, and those that wait.
//!
//! A component is finished when what was left of it is in the order, and all that it depends on is finished. It waits
//! at the first instance that it depends on and that isn't in a finished component. When that one is, it waits at the
//! next such instance, or is ready. So each dependency is looked at once, however many components there are.

ghost use Rattle.std.specs.Prelude.{◌≡◌, ℕ, List, [], ◌∷◌, ◌++◌, ◌==◌, OnOk, if◌then◌else◌};
ghost use Rattle.ep_exec.specs.Queue.{ready_at, waiting_at, IsPriority, MadeReady, Takes, Stands, WaitsMore};
ghost use Rattle.ep_exec.specs.Ready.{Waiting};
ghost use Rattle.ep_rules.specs.Graph.{Graph};

use crate::component::Component;
use crate::executed::Executed;
use crate::marked::Marked;
use crate::ready::least;
use ep_base::InstanceId;
use std::alloc::{AllocError, Global};
use std::collections::BTreeMap;

/// More than the place of any instance.
const ABOVE_ALL: u32 = 524_288;

/// The components that are ready, each by its priority.
type Ready = BTreeMap<u32, Component>;

/// The components that wait, each by the instance that it waits for.
type Waiters = BTreeMap<u32, Vec<Component>>;

/// The components that aren't finished.
#[derive(Drop)]
pub struct Queue {
    pub ready: Ready,
    pub waiters: Waiters,
}

/// Takes those that wait for the instance.
fn take_waiting(alloc: Global, waiters: &mut Waiters, instance: InstanceId) -> Vec<Component>
    ensures parts { result.items ≡ waiting_at waiters.old instance }
    ensures others { (q : ℕ) → waiting_at waiters.new q ≡ (if q == instance then [] else waiting_at waiters.old q) }
{
    match waiters.remove(&instance.place()) {
        Some(parts) => parts,
        None => Vec::new(alloc),
    }
}

/// Lets the component wait for the instance.
fn wait(
    alloc: Global,
    waiters: &mut Waiters,
    instance: InstanceId,
    part: Component,
) -> Result<(), AllocError>
    ensures { OnOk result (WaitsMore (waiting_at waiters.old) instance part (waiting_at waiters.new)) }
{
    let mut parts = take_waiting(alloc, waiters, instance);
    parts.push(part)?;
    match waiters.insert(instance.place(), parts) {
        Ok(_was) => Ok(()),
        Err(_) => Err(AllocError),
    }
}

/// The component's priority, the least first: by its least instance that is left. One with none left goes before all
/// others, so that what waits for it is ready in time.
fn priority_of(executed: &Executed, members: &[InstanceId]) -> Option<u32>
    ensures { IsPriority executed.now.list members.now result }
{
    if let Some(first) = executed.least_left(members) {
        return Some(first.place() + ABOVE_ALL);
    }
    match least(members) {
        Some(first) => Some(first.place()),
        None => None,
    }
}

/// Makes the component ready.
fn make_ready(executed: &Executed, ready: &mut Ready, part: Component) -> Result<(), AllocError>
    ensures { OnOk result (MadeReady executed.now.list (ready_at ready.old) part (ready_at ready.new)) }
{
    let Some(priority) = priority_of(executed, part.members()) else {
        return Ok(());
    };
    match ready.insert(priority, part) {
        Ok(_was) => Ok(()),
        Err(_) => Err(AllocError),
    }
}

/// Lets a component wait, or makes it ready.
fn look_at(
    alloc: Global,
    executed: &Executed,
    finished: &Marked,
    queue: &mut Queue,
    part: Component,
) -> Result<(), AllocError>
    ensures { OnOk result ((g : Graph) (all left : List ℕ) (todo : List Waiting) → Stands g executed.now.list all finished.now (todo ++ part ∷ []) left (ready_at queue.old.ready) (waiting_at queue.old.waiters) → Stands g executed.now.list all finished.now todo left (ready_at queue.new.ready) (waiting_at queue.new.waiters)) }
{
    let mut part = part;
    part.pass(finished);
    match part.first_wait() {
        Some(instance) => wait(alloc, &mut queue.waiters, instance, part),
        None => make_ready(executed, &mut queue.ready, part),
    }
}

/// Lets each of the components wait, or makes it ready.
pub fn look_at_all(
    alloc: Global,
    executed: &Executed,
    finished: &Marked,
    queue: &mut Queue,
    parts: Vec<Component>,
) -> Result<(), AllocError>
    ensures { OnOk result ((g : Graph) (all left : List ℕ) → Stands g executed.now.list all finished.now parts.items left (ready_at queue.old.ready) (waiting_at queue.old.waiters) → Stands g executed.now.list all finished.now [] left (ready_at queue.new.ready) (waiting_at queue.new.waiters)) }
{
    let mut parts = parts;
    while let Some(part) = parts.pop() {
        look_at(alloc, executed, finished, queue, part)?;
    }
    Ok(())
}

/// Looks again at what waits for one of these instances, all of which are in a finished component.
pub fn wake(
    alloc: Global,
    executed: &Executed,
    finished: &Marked,
    queue: &mut Queue,
    list: &[InstanceId],
) -> Result<(), AllocError>
    ensures { OnOk result ((g : Graph) (all : List ℕ) → Stands g executed.now.list all finished.now [] list.now (ready_at queue.old.ready) (waiting_at queue.old.waiters) → Stands g executed.now.list all finished.now [] [] (ready_at queue.new.ready) (waiting_at queue.new.waiters)) }
{
    for instance in list {
        let parts = take_waiting(alloc, &mut queue.waiters, *instance);
        look_at_all(alloc, executed, finished, queue, parts)?;
    }
    Ok(())
}

/// Takes the ready component of the least priority.
pub fn take_least(ready: &mut Ready) -> Option<Component>
    ensures { Takes (ready_at ready.old) result (ready_at ready.new) }
{
    match ready.pop_first() {
        Some((_, part)) => Some(part),
        None => None,
    }
}
