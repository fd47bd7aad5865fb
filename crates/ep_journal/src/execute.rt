//! Executing an instance, and all that it waits for.

ghost use Rattle.std.specs.Prelude.{◌≡◌, ◌++◌, ◌∷◌, [], IfOk, IfErr, OnErr, OnOk};
ghost use Rattle.ep_exec.specs.Kept.{HasRoom};
ghost use Rattle.ep_exec.specs.Tries.{tried};
ghost use Rattle.ep_rules.specs.OneMap.{answer, after, after_all};
ghost use Rattle.ep_rules.specs.Order.{IsClosed};
ghost use Rattle.ep_rules.specs.States.{command_in, graph_in};
ghost use Rattle.ep_journal.specs.Executing.{done_by, AreFresh, IsExecuted, IsUnexecuted};

use crate::executions::Executions;
use crate::step_fault::StepFault;
use ep_base::{Answer, Command, InstanceId};
use ep_exec::{Executed, Store, Trial, plan_left};
use ep_space::Space;
use std::alloc::{AllocError, Global};

/// Does what is committed in the instance: nothing if nothing is.
fn try_one(space: &Space, trial: &mut Trial, id: InstanceId) -> Result<Answer, AllocError>
    ensures answer { IfOk result (λ a. a ≡ answer trial.old.current (command_in space.now.records id)) }
    ensures ok { OnOk result (trial.new ≡ tried trial.old (command_in space.now.records id)) }
    ensures err { OnErr result (trial.new ≡ trial.old) }
    ensures start { trial.new.start ≡ trial.old.start }
{
    match space.committed(id) {
        None => trial.apply(&Command::noop()),
        Some(decree) => trial.apply(&decree.command),
    }
}

/// Does what is committed in the instances, in turn.
fn try_all(
    alloc: Global,
    space: &Space,
    trial: &mut Trial,
    order: &[InstanceId],
) -> Result<Executions, AllocError>
    ensures done { IfOk result (λ d. d ≡ done_by (command_in space.now.records) trial.old.current order.now) }
    ensures current { OnOk result (trial.new.current ≡ after_all (command_in space.now.records) trial.old.current order.now) }
    ensures start { trial.new.start ≡ trial.old.start }
{
    let mut done = Vec::new(alloc);
    for id in order {
        let answer = try_one(space, trial, *id)?;
        done.push((*id, answer))?;
    }
    Ok(Executions::new(done))
}

/// Does all of several instances' commands on the map, or none.
fn do_several(
    alloc: Global,
    space: &Space,
    store: &mut Store,
    order: &[InstanceId],
) -> Result<Executions, AllocError>
    ensures done { IfOk result (λ d. d ≡ done_by (command_in space.now.records) store.old order.now) }
    ensures ok { OnOk result (store.new ≡ after_all (command_in space.now.records) store.old order.now) }
    ensures err { OnErr result (store.new ≡ store.old) }
{
    let mut trial = std::mem::replace(store, Store::new(alloc)).try_out();
    match try_all(alloc, space, &mut trial, order) {
        Ok(done) => {
            *store = trial.keep();
            Ok(done)
        }
        Err(fault) => {
            *store = trial.take_back();
            Err(fault)
        }
    }
}

/// Does the command on the map: a no-op answers lost. If memory runs out the map stays as it was.
fn do_command(store: &mut Store, command: &Command) -> Result<Answer, AllocError>
    ensures answer { IfOk result (λ a. a ≡ answer store.old command.now) }
    ensures ok { OnOk result (store.new ≡ after store.old command.now) }
    ensures err { OnErr result (store.new ≡ store.old) }
{
    if command.is_noop() {
        return Ok(Answer::Lost);
    }
    Ok(Answer::Replied(store.apply(command)?))
}

/// Does what is committed in one instance on the map, or nothing. Nothing is kept for undoing it, since no later command could run out of
/// memory.
fn do_one(
    alloc: Global,
    space: &Space,
    store: &mut Store,
    id: InstanceId,
) -> Result<Executions, AllocError>
    ensures done { IfOk result (λ d. d ≡ done_by (command_in space.now.records) store.old (id ∷ [])) }
    ensures ok { OnOk result (store.new ≡ after_all (command_in space.now.records) store.old (id ∷ [])) }
    ensures err { OnErr result (store.new ≡ store.old) }
{
    let mut done = Vec::with_capacity(alloc, 1)?;
    let answer = match space.committed(id) {
        None => Answer::Lost,
        Some(decree) => do_command(store, &decree.command)?,
    };
    done.push_reserved((id, answer));
    Ok(Executions::new(done))
}

/// Does all of the instances' commands on the map, or none.
fn do_all(
    alloc: Global,
    space: &Space,
    store: &mut Store,
    order: &[InstanceId],
) -> Result<Executions, AllocError>
    ensures done { IfOk result (λ d. d ≡ done_by (command_in space.now.records) store.old order.now) }
    ensures ok { OnOk result (store.new ≡ after_all (command_in space.now.records) store.old order.now) }
    ensures err { OnErr result (store.new ≡ store.old) }
{
    match order {
        [id] => do_one(alloc, space, store, *id),
        _ => do_several(alloc, space, store, order),
    }
}

/// Adds the instances to what is executed.
fn add_all(executed: &mut Executed, order: &[InstanceId])
    requires room { HasRoom executed.old order.now }
    requires fresh { AreFresh executed.old.list order.now }
    ensures { executed.new.list ≡ executed.old.list ++ order.now }
{
    for id in order {
        executed.add(*id);
    }
}

/// Executes the root and all that it waits for, or nothing: `NotCommitted` if the root reaches an instance that is not committed,
/// with the least of them. At any refusal, also if memory runs out, what is executed and the map are as they were.
#[tactic(auto, using(crate::proofs::Execution::unplanned))]
pub(crate) fn execute(
    alloc: Global,
    space: &Space,
    executed: &mut Executed,
    store: &mut Store,
    root: InstanceId,
) -> Result<Executions, StepFault>
    requires closed { IsClosed (graph_in space.now.records) executed.old.list }
    ensures ok { IfOk result (λ done. IsExecuted space.now root done executed.old.list store.old executed.new.list store.new) }
    ensures refused { IfErr result (λ e. IsUnexecuted space.now root executed.old.list e) }
    ensures err { OnErr result ((executed.new.list ≡ executed.old.list) × (store.new ≡ store.old)) }
{
    let order = plan_left(alloc, space, executed, root)?;
    executed.reserve(&order)?;
    let done = do_all(alloc, space, store, &order)?;
    add_all(executed, &order);
    Ok(done)
}
