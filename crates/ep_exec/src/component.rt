//! A component, and what it waits for.

ghost use Rattle.std.specs.Prelude.{◌≡◌, ◌++◌, drop, filter, map, IfOk, OnOk};
ghost use Rattle.ep_exec.specs.Cut.{left_in};
ghost use Rattle.ep_exec.specs.Ready.{is_out, waits_for, waiting_of, passed, with_passed, first_of};
ghost use Rattle.ep_exec.specs.Walk.{deps_at, lists};

use crate::executed::Executed;
use crate::graph::deps_at;
use crate::level::append;
use crate::marked::Marked;
use ep_base::InstanceId;
use ep_space::Space;
use std::alloc::{AllocError, Global};
use std::marker::Model;

/// The members of a component, and what they depend on outside of it. As many of these as `passed` says are passed.
#[derive(Drop)]
pub struct Component {
    members: Vec<InstanceId>,
    waits: Vec<InstanceId>,
    passed: usize,
}

impl Model for Component {
    ghost use Rattle.std.specs.Prelude.{drop};
    ghost use Rattle.ep_exec.specs.Ready.{Waiting, waiting_code};

    ghost Value = { Waiting };

    ghost coded = { waiting_code };

    ghost view = { λ p. record { members = p.members.items; waits = drop p.passed p.waits.items } };
}

impl Component {
    /// The component, which waits for all that it depends on outside of it and that is not skipped.
    pub fn new(
        alloc: Global,
        space: &Space,
        skipped: &Executed,
        component: &[InstanceId],
    ) -> Result<Component, AllocError>
        ensures { IfOk result (λ p. p ≡ waiting_of (left_in space.now.records skipped.now.list) component.now) }
    {
        let waits = waits_of(alloc, space, skipped, component)?;
        let mut members = Vec::new(alloc);
        append(&mut members, component)?;
        Ok(Component {
            members,
            waits,
            passed: 0,
        })
    }

    /// The members.
    pub fn members(&self) -> &[InstanceId]
        ensures { result.now ≡ self.now.members }
    {
        &self.members
    }

    /// The first that it still waits for.
    pub fn first_wait(&self) -> Option<InstanceId>
        ensures { result ≡ first_of self.now.waits }
    {
        if self.passed < self.waits.len() {
            Some(self.waits[self.passed])
        } else {
            None
        }
    }

    /// Passes what is in a finished component by now, up to the first that isn't.
    pub fn pass(&mut self, finished: &Marked)
        ensures { self.new ≡ with_passed finished.now self.old }
    {
        self.passed = pass_from(finished, &self.waits, self.passed);
    }
}

/// The place of the first from this place on that isn't in a finished component, or the list's length.
fn pass_from(finished: &Marked, waits: &[InstanceId], from: usize) -> usize
    ensures { drop result waits.now ≡ passed finished.now (drop from waits.now) }
{
    let mut place = from;
    while place < waits.len() && finished.contains(waits[place]) {
        place += 1;
    }
    place
}

/// Adds what the instance depends on and is not skipped, but for the component's own.
fn append_waits(
    list: &mut Vec<InstanceId>,
    space: &Space,
    skipped: &Executed,
    own: &Marked,
    instance: InstanceId,
) -> Result<(), AllocError>
    ensures { OnOk result (list.new.items ≡ list.old.items ++ filter (is_out own.now) (deps_at (left_in space.now.records skipped.now.list instance))) }
{
    for dep in deps_at(space, instance) {
        if !skipped.contains(*dep) && !own.contains(*dep) {
            list.push(*dep)?;
        }
    }
    Ok(())
}

/// What a component's members depend on outside of it and is not skipped.
fn waits_of(
    alloc: Global,
    space: &Space,
    skipped: &Executed,
    component: &[InstanceId],
) -> Result<Vec<InstanceId>, AllocError>
    ensures { IfOk result (λ v. v.items ≡ waits_for (left_in space.now.records skipped.now.list) component.now component.now) }
{
    let mut own = Marked::new(alloc);
    own.append(component)?;
    let mut waits = Vec::new(alloc);
    for instance in component {
        append_waits(&mut waits, space, skipped, &own, *instance)?;
    }
    Ok(waits)
}

/// The components, each with what it waits for.
pub fn parts_of(
    alloc: Global,
    space: &Space,
    skipped: &Executed,
    found: &[Vec<InstanceId>],
) -> Result<Vec<Component>, AllocError>
    ensures { IfOk result (λ v. v.items ≡ map (waiting_of (left_in space.now.records skipped.now.list)) (lists found.now)) }
{
    let mut parts = Vec::new(alloc);
    for component in found {
        parts.push(Component::new(alloc, space, skipped, component)?)?;
    }
    Ok(parts)
}
