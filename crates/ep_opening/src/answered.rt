//! The instances whose commands a journal did.

ghost use Rattle.std.specs.Prelude.{◌≡◌, ◌≤◌, ◌↔◌, ℕ, suc, [], IsTrue, IfOk, OnOk};
ghost use Rattle.ep_base.specs.Instances.{instance_of, highest_number, IsInstance};
ghost use Rattle.ep_base.specs.Places.{Has};
ghost use Rattle.ep_base.specs.declared.reply.Reply.TheVariants.{Closed};
ghost use Rattle.ep_journal.specs.Entries.{entries_of};
ghost use Rattle.ep_opening.specs.Closing.{WasAnswered};
ghost use Rattle.ep_opening.specs.Gathering.{AreBelow, Gains, WasAnsweredIn, WasDone};

use ep_base::{Answer, Deps, InstanceId, ReplicaId, Reply, RisingList};
use ep_exec::Executed;
use ep_journal::Entry;
use std::alloc::{AllocError, Global};

/// Whether the reply is that the map was closed.
fn says_closed(reply: &Reply) -> bool
    ensures { IsTrue result ↔ (reply.now ≡ Closed) }
{
    match reply {
        Reply::Closed => true,
        Reply::Absent => false,
        Reply::Present(_) => false,
        Reply::Ordered => false,
        Reply::Done(_) => false,
        Reply::Undone(_) => false,
    }
}

/// Whether the command was done: a no-op is none, and a closed map is left as it is.
fn was_done(answer: &Answer) -> bool
    ensures { IsTrue result ↔ WasDone answer.now }
{
    match answer {
        Answer::Lost => false,
        Answer::Replied(reply) => !says_closed(reply),
    }
}

/// Adds the instance to the set.
fn add(set: &mut Executed, instance: InstanceId) -> Result<(), AllocError>
    ensures { OnOk result (Gains (λ i. i ≡ instance) set.old.list set.new.list) }
{
    let _place = instance.place();
    set.reserve_one(instance)?;
    set.add(instance);
    Ok(())
}

/// Adds the instance to the set, where its command was done.
fn note(set: &mut Executed, instance: InstanceId, answer: &Answer) -> Result<(), AllocError>
    ensures { OnOk result (Gains (λ i. (i ≡ instance) × WasDone answer.now) set.old.list set.new.list) }
{
    if was_done(answer) {
        add(set, instance)?;
    }
    Ok(())
}

/// Adds those of the executions whose commands were done.
fn note_all(set: &mut Executed, done: &[(InstanceId, Answer)]) -> Result<(), AllocError>
    ensures { OnOk result (Gains (WasAnsweredIn done.now) set.old.list set.new.list) }
{
    for (instance, answer) in done {
        note(set, *instance, answer)?;
    }
    Ok(())
}

/// The set of those of all entries.
fn gathered(alloc: Global, entries: &[Entry]) -> Result<Executed, AllocError>
    ensures { IfOk result (λ set. Gains (WasAnswered (entries_of entries.now)) [] set.list) }
{
    let mut set = Executed::new(alloc);
    for entry in entries {
        note_all(&mut set, entry.done.as_slice())?;
    }
    Ok(set)
}

/// The instance of this number that the replica leads.
fn instance_at(leader: ReplicaId, number: u16) -> InstanceId
    requires { (1 ≤ number) × (number ≤ highest_number) }
    ensures { result ≡ instance_of leader number }
{
    InstanceId::new(leader, number).unwrap()
}

/// Adds the instance to the list, if the set has it.
fn push_if(list: &mut RisingList, set: &Executed, instance: InstanceId) -> Result<(), AllocError>
    requires { AreBelow set.now.list instance list.old }
    ensures { OnOk result (AreBelow set.now.list (suc instance) list.new) }
{
    if set.contains(instance) {
        list.push(instance)?;
    }
    Ok(())
}

/// Adds the instances of the set that this replica leads.
fn push_led(list: &mut RisingList, set: &Executed, leader: ReplicaId) -> Result<(), AllocError>
    requires { AreBelow set.now.list (instance_of leader 1) list.old }
    ensures { OnOk result (AreBelow set.now.list (instance_of leader 9001) list.new) }
{
    for number in 1..9001 {
        push_if(list, set, instance_at(leader, number))?;
    }
    Ok(())
}

/// The set's instances in rising order.
fn in_order(alloc: Global, set: &Executed) -> Result<Deps, AllocError>
    requires { (i : ℕ) → Has set.now.list i → IsInstance i }
    ensures { IfOk result (λ deps. (i : ℕ) → Has deps i ↔ Has set.now.list i) }
{
    let mut list = RisingList::with_room(alloc, set.as_slice().len())?;
    for index in 0..7 {
        push_led(&mut list, set, ReplicaId::from_valid(index))?;
    }
    Ok(list.into_deps())
}

/// The instances whose commands the entries did, in rising order.
pub(crate) fn answered(alloc: Global, entries: &[Entry]) -> Result<Deps, AllocError>
    ensures { IfOk result (λ deps. (i : ℕ) → Has deps i ↔ WasAnswered (entries_of entries.now) i) }
{
    let set = gathered(alloc, entries)?;
    let deps = in_order(alloc, &set)?;
    Ok(deps)
}
