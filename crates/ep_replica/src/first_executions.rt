//! The index of first executions.

ghost use Rattle.std.specs.Prelude.{◌≡◌, ◌<◌, ◌≤◌, ◌++◌, ◌∷◌, [], ℕ, List, Some, None, cond, eqb, length, IfOk, OnOk};
ghost use Rattle.ep_base.specs.Instances.{leader_of, number_of, highest_number, instance_of};
ghost use Rattle.ep_journal.specs.declared.entry.Entry.{Entry};
ghost use Rattle.ep_replica.specs.FirstExecutions.{or_spot, first_among, spot_at, AreFirsts, HavePlaces};

use crate::execution_place::ExecutionPlace;
use ep_base::{Answer, InstanceId, ReplicaId};
use ep_journal::Entry;
use std::alloc::{AllocError, Global};
use std::marker::Model;

/// Notes where the instance was executed, if it is the replica's own and nothing is noted of it yet.
fn note_one(
    items: &mut Vec<Option<ExecutionPlace>>,
    me: ReplicaId,
    instance: InstanceId,
    spot: ExecutionPlace,
)
    requires room { leader_of instance ≡ me → number_of instance < length items.old.items }
    ensures noted { (number : ℕ) → number ≤ highest_number → spot_at items.new.items number ≡ or_spot (spot_at items.old.items number) (cond (eqb instance (instance_of me number)) (Some spot) None) }
    ensures room { length items.new.items ≡ length items.old.items }
{
    if instance.replica() != me {
        return;
    }
    let number = instance.number() as usize;
    let first = items[number].unwrap_or(spot);
    items[number] = Some(first);
}

/// Notes where each own instance was first executed that the entry of this place executed, and none before it.
#[inline(always)]
fn note_all(
    items: &mut Vec<Option<ExecutionPlace>>,
    me: ReplicaId,
    entry: usize,
    done: &[(InstanceId, Answer)],
)
    requires room { HavePlaces me (length items.old.items) done.now }
    ensures noted { (number : ℕ) → number ≤ highest_number → spot_at items.new.items number ≡ or_spot (spot_at items.old.items number) (first_among entry 0 done.now (instance_of me number)) }
    ensures room { length items.new.items ≡ length items.old.items }
{
    for (place, execution) in done.iter().enumerate() {
        note_one(items, me, execution.0, ExecutionPlace { entry, place });
    }
}

/// The greatest number of these instances; 0 where there are none.
fn top_of(done: &[(InstanceId, Answer)]) -> u16
    ensures { (me places : ℕ) → result < places → HavePlaces me places done.now }
{
    let mut top = 0;
    for (instance, _) in done {
        top = instance.number_at_least(top);
    }
    top
}

/// Where a replica's own instances were first executed in its journal, each at its number. It gets places as they are needed.
#[derive(Drop)]
pub(crate) struct FirstExecutions {
    items: Vec<Option<ExecutionPlace>>,
}

impl Model for FirstExecutions {
    ghost use Rattle.std.specs.Prelude.{List, Option};
    ghost use Rattle.ep_replica.specs.declared.execution_place.ExecutionPlace.{ExecutionPlace};

    ghost Value = { List (Option ExecutionPlace) };

    ghost view = { λ f. f.items.items };
}

impl FirstExecutions {
    /// No executions.
    pub(crate) fn new(alloc: Global) -> FirstExecutions
        ensures { result ≡ [] }
    {
        FirstExecutions {
            items: Vec::new(alloc),
        }
    }

    /// Makes a place for each own instance up to this number.
    #[inline(always)]
    pub(crate) fn make_room(&mut self, top: u16) -> Result<(), AllocError>
        ensures room { OnOk result (top < length self.new) }
        ensures same { (number : ℕ) → spot_at self.new number ≡ spot_at self.old number }
        ensures firsts { (me : ℕ) (es : List Entry) → AreFirsts me es self.old → AreFirsts me es self.new }
    {
        for _ in self.items.len()..usize::from(top) + 1 {
            self.items.push(None)?;
        }
        Ok(())
    }

    /// Where the own instance of this number was first executed.
    pub(crate) fn get(&self, number: u16) -> Option<ExecutionPlace>
        ensures { result ≡ spot_at self.now number }
    {
        *self.items.get(number as usize)?
    }

    /// The first executions by these entries of this replica.
    pub(crate) fn of(
        alloc: Global,
        me: ReplicaId,
        entries: &[Entry],
    ) -> Result<FirstExecutions, AllocError>
        ensures { IfOk result (λ f. AreFirsts me entries.now f) }
    {
        let mut firsts = FirstExecutions::new(alloc);
        for (place, entry) in entries.iter().enumerate() {
            firsts.make_room(top_of(entry.done.as_slice()))?;
            firsts.mark(me, place, entry);
        }
        Ok(firsts)
    }

    /// Keeps what the entry of this replica executed first, which this many entries come before. It takes no memory.
    #[inline(always)]
    pub(crate) fn mark(&mut self, me: ReplicaId, before: usize, entry: &Entry)
        requires room { HavePlaces me (length self.old) entry.now.done }
        ensures reported { (es : List Entry) → length es ≡ before → AreFirsts me es self.old → AreFirsts me (es ++ entry.now ∷ []) self.new }
        ensures room { length self.new ≡ length self.old }
    {
        note_all(&mut self.items, me, before, entry.done.as_slice());
    }
}
