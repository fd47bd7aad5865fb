//! What a replica executes next of its own: the least of its committed instances that waits for none.

ghost use Rattle.std.specs.Prelude.{◌≡◌, ◌≤◌, ◌↔◌, IsTrue};
ghost use Rattle.ep_base.specs.Instances.{instance_of, highest_number};
ghost use Rattle.ep_space.specs.Open.{IsAbove};

use crate::replica::Replica;
use ep_base::{InstanceId, ReplicaId};
use ep_journal::{Event, StepFault};
use std::alloc::AllocError;

/// What came of a try to execute an instance.
#[derive(Clone, Copy, Debug, PartialEq, Eq)]
enum Attempt {
    /// It was executed.
    Executed,
    /// It isn't committed, or was executed before, or waits for one that isn't committed.
    Passed,
    /// It was refused, as memory ran out.
    Refused,
    /// It was refused, as no stamp is left.
    Full,
}

/// The replica's instance of this number.
fn instance_at(replica: ReplicaId, number: u16) -> InstanceId
    requires { (1 ≤ number) × (number ≤ highest_number) }
    ensures { result ≡ instance_of replica number }
{
    InstanceId::new(replica, number).unwrap()
}

/// Whether the instance is above this one; true if none is given.
fn is_above(after: &Option<InstanceId>, instance: InstanceId) -> bool
    ensures { IsTrue result ↔ IsAbove after.now instance }
{
    match after {
        Some(after) => *after < instance,
        None => true,
    }
}

impl Replica {
    ghost use Rattle.std.specs.Prelude.{◌↔◌, ◌≡◌, ◌≤◌, IsTrue, IfSome, IfOk};
    ghost use Rattle.ep_base.specs.Places.{Has};
    ghost use Rattle.ep_base.specs.Instances.{leader_of};
    ghost use Rattle.ep_replica.specs.Blockers.{IsBlockedBy};
    ghost use Rattle.ep_replica.specs.Pending.{state_of, IsPending, IsNext, Tries, TriesNext, ExecutesNext};

    /// Whether the instance was executed here.
    pub fn has_executed(&self, instance: InstanceId) -> bool
        ensures { IsTrue result ↔ Has (state_of self.now).executed instance }
    {
        self.journal().has_executed(instance)
    }

    /// Whether the replica leads the instance, has committed it, and hasn't executed it.
    fn is_pending(&self, instance: InstanceId) -> bool
        ensures { IsTrue result ↔ IsPending self.now instance }
    {
        instance.replica() == self.me()
            && self.committed(instance).is_some()
            && !self.has_executed(instance)
    }

    /// The least instance above this one (if one is given) that the replica leads and that is committed and not executed here.
    pub fn next_ready(&self, after: Option<InstanceId>) -> Option<InstanceId>
        ensures { IsNext self.now after result }
    {
        for number in 1..self.journal().highest() + 1 {
            let instance = instance_at(self.me(), number);
            if is_above(&after, instance) && self.is_pending(instance) {
                return Some(instance);
            }
        }
        None
    }

    /// Executes an instance that is pending, or leaves the replica as it was.
    fn execute(&mut self, instance: InstanceId) -> Attempt
        requires { IsPending self.old instance }
        ensures { Tries self.old instance result self.new }
    {
        match self.take(Event::Execute(instance)) {
            Ok(()) => Attempt::Executed,
            Err(StepFault::StampFull) => Attempt::Full,
            Err(_) => Attempt::Refused,
        }
    }

    /// An instance that this one waits for, which isn't committed; none if all that it reaches is committed.
    fn obstacle(&self, instance: InstanceId) -> Result<Option<InstanceId>, AllocError>
        ensures { IfOk result (λ found. IfSome found (IsBlockedBy self.now instance)) }
    {
        if self.is_ready(instance) {
            return Ok(None);
        }
        let known = self.known_obstacle(instance);
        if known.is_some() {
            return Ok(known);
        }
        self.missing(instance)
    }

    /// Whether the instance is committed, and all that it depends on was executed.
    fn is_ready(&self, instance: InstanceId) -> bool {
        let Some(decree) = self.committed(instance) else {
            return false;
        };
        let deps = decree.attrs.deps.as_slice();
        deps.iter().all(|dep| self.has_executed(*dep))
    }

    /// What blocks an own instance that this one depends on, if that is known.
    fn known_obstacle(&self, instance: InstanceId) -> Option<InstanceId>
        ensures { IfSome result (IsBlockedBy self.now instance) }
    {
        let decree = self.committed(instance)?;
        self.blocker_among(decree.attrs.deps.as_slice())
    }

    /// Executes an own instance, if it is pending and waits for none. Otherwise the replica is left as it was, and if it waits it isn't tried
    /// again until what it waits for is committed.
    fn try_execute(&mut self, instance: InstanceId) -> Attempt
        requires { leader_of instance ≡ self.old.me }
        ensures { Tries self.old instance result self.new }
    {
        if !self.is_pending(instance) {
            self.set_aside(instance, None);
            return Attempt::Passed;
        }
        match self.obstacle(instance) {
            Ok(None) => self.execute(instance),
            Ok(Some(blocker)) => {
                self.set_aside(instance, Some(blocker));
                Attempt::Passed
            }
            Err(_) => Attempt::Refused,
        }
    }

    /// Executes the least own instance that is committed, not executed, and waits for none that isn't committed: one entry more, and `true`; `false`
    /// if there is none. `Err`: memory ran out, or no stamp is left. `false` and `Err` leave the replica as it was.
    pub fn try_next(&mut self) -> Result<bool, StepFault>
        ensures { TriesNext self.old result self.new }
    {
        let mut number = self.next_due(1);
        while number <= InstanceId::HIGHEST_NUMBER {
            match self.try_execute(instance_at(self.me(), number)) {
                Attempt::Executed => return Ok(true),
                Attempt::Passed => number = self.next_due(number + 1),
                Attempt::Refused => return Err(StepFault::Memory),
                Attempt::Full => return Err(StepFault::StampFull),
            }
        }
        Ok(false)
    }

    /// As `try_next`, but `false` too if memory runs out or no stamp is left.
    #[tactic(auto, using(crate::proofs::Trying::reported_next, crate::proofs::Trying::held_next))]
    pub fn execute_next(&mut self) -> bool
        ensures { ExecutesNext self.old result self.new }
    {
        match self.try_next() {
            Ok(executed) => executed,
            Err(_) => false,
        }
    }
}
