//! The execution order of a root.

ghost use Rattle.std.specs.Prelude.{◌≡◌, ℕ, ◌↔◌, None, IsTrue, IfOk, IfErr, flat_map};
ghost use Rattle.ep_base.specs.Places.{Has};
ghost use Rattle.ep_rules.specs.Order.{IsPlan, IsClosed};
ghost use Rattle.ep_rules.specs.States.{graph_in};
ghost use Rattle.ep_exec.specs.Cut.{is_alone};
ghost use Rattle.ep_exec.specs.Found.{IsLeast};
ghost use Rattle.ep_exec.specs.Refusal.{Refuses};
ghost use Rattle.ep_exec.specs.Walk.{lists};

use crate::executed::Executed;
use crate::graph::attrs_at;
use crate::level::append;
use crate::plan_fault::PlanFault;
use crate::ready::{lesser, order_of};
use crate::walk::{Reach, components};
use ep_base::InstanceId;
use ep_space::Space;
use std::alloc::{AllocError, Global};

/// Whether nothing is committed in the instance.
pub fn is_missing(space: &Space, instance: InstanceId) -> bool
    ensures { IsTrue result ↔ (graph_in space.now.records instance ≡ None) }
{
    attrs_at(space, instance).is_none()
}

/// The least one of those that are not committed.
fn least_missing(space: &Space, members: &[InstanceId]) -> Option<InstanceId>
    ensures { IsLeast (λ i. graph_in space.now.records i ≡ None) members.now result }
{
    let mut best = None;
    for instance in members {
        if is_missing(space, *instance) {
            best = Some(lesser(best, *instance));
        }
    }
    best
}

/// The members of all components.
fn members_of(alloc: Global, found: &[Vec<InstanceId>]) -> Result<Vec<InstanceId>, AllocError>
    ensures { IfOk result (λ v. v.items ≡ flat_map (λ c. c) (lists found.now)) }
{
    let mut all = Vec::new(alloc);
    for component in found {
        append(&mut all, component)?;
    }
    Ok(all)
}

/// Whether the instance is committed, and all that it depends on is skipped.
fn is_alone(space: &Space, skipped: &Executed, instance: InstanceId) -> bool
    ensures { result ≡ is_alone skipped.now.list (graph_in space.now.records instance) }
{
    match attrs_at(space, instance) {
        Some(attrs) => skipped.contains_all(attrs.deps.as_slice()),
        None => false,
    }
}

/// The plan, by a walk that leaves out what is skipped: a closed part of what was executed. Where the root depends on
/// nothing else, nothing is walked.
fn plan_past(
    alloc: Global,
    space: &Space,
    skipped: &Executed,
    executed: &Executed,
    root: InstanceId,
) -> Result<Vec<InstanceId>, PlanFault>
    requires closed { IsClosed (graph_in space.now.records) skipped.now.list }
    requires within { (i : ℕ) → Has skipped.now.list i → Has executed.now.list i }
    ensures order { IfOk result (λ v. IsPlan (graph_in space.now.records) executed.now.list root v.items) }
    ensures refused { IfErr result (λ e. Refuses (graph_in space.now.records) executed.now.list root e) }
{
    if executed.contains(root) {
        return Ok(Vec::new(alloc));
    }
    if is_alone(space, skipped, root) {
        return Ok(Vec::from_slice(alloc, &[root])?);
    }
    let components = components(alloc, space, skipped, root)?;
    let reach = Reach { root, components };
    let members = members_of(alloc, &reach.components)?;
    if let Some(instance) = least_missing(space, &members) {
        return Err(PlanFault::NotCommitted(instance));
    }
    Ok(order_of(alloc, space, skipped, executed, &reach)?)
}

/// The execution order of a root, after these were executed (EPaxos, section 4.3.2): nothing where the root was
/// executed, and else all that it reaches and that is left, component after component, of the ready ones first that
/// with the least instance left, and inside one by sequence number, replica and number. What was executed is walked
/// through: it may depend on instances that are left, or not committed.
///
/// `NotCommitted` where the root reaches an instance that is not committed, with the least of them.
pub fn plan(
    alloc: Global,
    space: &Space,
    executed: &Executed,
    root: InstanceId,
) -> Result<Vec<InstanceId>, PlanFault>
    ensures order { IfOk result (λ v. IsPlan (graph_in space.now.records) executed.now.list root v.items) }
    ensures refused { IfErr result (λ e. Refuses (graph_in space.now.records) executed.now.list root e) }
{
    let skipped = Executed::new(alloc);
    plan_past(alloc, space, &skipped, executed, root)
}

/// As `plan`, where what was executed is closed: it isn't walked through.
pub fn plan_left(
    alloc: Global,
    space: &Space,
    executed: &Executed,
    root: InstanceId,
) -> Result<Vec<InstanceId>, PlanFault>
    requires closed { IsClosed (graph_in space.now.records) executed.now.list }
    ensures order { IfOk result (λ v. IsPlan (graph_in space.now.records) executed.now.list root v.items) }
    ensures refused { IfErr result (λ e. Refuses (graph_in space.now.records) executed.now.list root e) }
{
    plan_past(alloc, space, executed, executed, root)
}
