//! What a replica remembers of its own instances that it hasn't executed yet.

ghost use Rattle.std.specs.Prelude.{◌≡◌, ◌≤◌, ◌<◌, ℕ, [], Some, None, length, IfOk, IfSome, OnOk};
ghost use Rattle.ep_base.specs.Instances.{number_of, highest_number, instance_of};
ghost use Rattle.ep_journal.specs.Events.{event_of};
ghost use Rattle.ep_journal.specs.Leaving.{standing};
ghost use Rattle.ep_rules.specs.Maps.{get};
ghost use Rattle.ep_rules.specs.States.{committed_in};
ghost use Rattle.ep_rules.specs.declared.record.Record.{Record};
ghost use Rattle.ep_replica.specs.Blockers.{is_due, blocker_of, about, Grows, Remembers, MayBeSetAside};
ghost use Rattle.ep_replica.specs.Kept.{Kept};
ghost use Rattle.ep_replica.specs.Pending.{state_of};

use crate::blockers::Blockers;
use crate::due_numbers::DueNumbers;
use ep_base::InstanceId;
use ep_journal::{Event, Journal};
use std::alloc::{AllocError, Global};

/// The instance that the event is about, unless it is committed: the event may commit it, and no other.
#[inline(always)]
pub(crate) fn open_in(journal: &Journal, event: &Event) -> Option<InstanceId>
    ensures { (i : ℕ) → about (event_of event.now) ≡ Some i → committed_in (standing journal.now).state.records i ≡ None → result ≡ Some i }
{
    let instance = match event {
        Event::Handle(frame) => frame.instance(),
        Event::GiveUp(instance) | Event::Recover(instance) => *instance,
        Event::Propose {
            client: _,
            request: _,
            command: _,
            seen: _,
            spared: _,
        }
        | Event::Execute(_) => return None,
    };
    if journal.committed(instance).is_some() {
        return None;
    }
    Some(instance)
}

/// Which own instances are due to be tried, and what blocks the others.
#[derive(Drop)]
pub(crate) struct Remembered {
    pub due: DueNumbers,
    pub blockers: Blockers,
}

impl Remembered {
    /// Nothing.
    pub(crate) fn new(alloc: Global) -> Remembered
        ensures due { result.due ≡ [] }
        ensures blockers { result.blockers ≡ [] }
    {
        Remembered {
            due: DueNumbers::new(alloc),
            blockers: Blockers::new(alloc),
        }
    }

    /// All own instances up to this number are due, and nothing is known to block one: none above it is committed.
    pub(crate) fn all_due(alloc: Global, top: u16) -> Result<Remembered, AllocError>
        requires { top ≤ highest_number }
        ensures all { IfOk result (λ r. (k : Kept) → ((i : ℕ) (r : Record) → get (state_of k).records i ≡ Some r → number_of i ≤ top) → Remembers k r.due r.blockers) }
        ensures fits { IfOk result (λ r. length r.blockers ≤ length r.due) }
    {
        Ok(Remembered {
            due: DueNumbers::all(alloc, top)?,
            blockers: Blockers::new(alloc),
        })
    }

    /// Makes a place for each own instance up to this number.
    #[inline(always)]
    pub(crate) fn reserve(&mut self, top: u16) -> Result<(), AllocError>
        ensures room { OnOk result (top < length self.new.due) }
        ensures fits { length self.old.blockers ≤ length self.old.due → length self.new.blockers ≤ length self.new.due }
        ensures due { (n : ℕ) → is_due self.new.due n ≡ is_due self.old.due n }
        ensures blockers { (n : ℕ) → blocker_of self.new.blockers n ≡ blocker_of self.old.blockers n }
    {
        self.due.reserve(top)?;
        self.blockers.reserve(top)
    }

    /// Notes that the instance was committed, if it was: it is due if it is the replica's own, and so is what it blocked.
    #[inline(always)]
    pub(crate) fn note(&mut self, journal: &Journal, subject: Option<InstanceId>)
        requires room { IfSome subject (λ i. number_of i < length self.old.due) }
        requires fits { length self.old.blockers ≤ length self.old.due }
        ensures fits { length self.new.blockers ≤ length self.new.due }
        ensures remembers { (k : Kept) → Grows k journal.now subject → Remembers k self.old.due self.old.blockers → Remembers journal.now self.new.due self.new.blockers }
    {
        let Some(instance) = subject else {
            return;
        };
        if journal.committed(instance).is_none() {
            return;
        }
        self.blockers.wake(instance, &mut self.due);
        if instance.replica() == journal.me() {
            self.due.add(instance.number());
        }
    }

    /// The own instance of this number isn't tried again until what blocks it is committed; never, if nothing is given.
    pub(crate) fn set_aside(&mut self, number: u16, blocker: Option<InstanceId>)
        requires { number ≤ highest_number }
        ensures fits { length self.old.blockers ≤ length self.old.due → length self.new.blockers ≤ length self.new.due }
        ensures remembers { (k : Kept) → MayBeSetAside k (instance_of k.me number) blocker → Remembers k self.old.due self.old.blockers → Remembers k self.new.due self.new.blockers }
    {
        if self.blockers.set(number, blocker) {
            self.due.remove(number);
        }
    }
}
