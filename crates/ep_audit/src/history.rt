//! The history of journals, with replies.

ghost use Rattle.std.specs.Prelude.{◌≡◌, ◌++◌, ◌⊎◌, ◌↔◌, ℕ, List, [], Some, OnOk, IfOk, false};
ghost use Rattle.ep_base.specs.Places.{Has};
ghost use Rattle.ep_rules.specs.Journals.{Scheduled, IsSchedule};
ghost use Rattle.ep_rules.specs.Steps.{order_of};
ghost use Rattle.ep_journal.specs.Entries.{journals_of};
ghost use Rattle.ep_audit.specs.Lines.{reported_by, line_at, line_of, lines_of, lines_in};
ghost use Rattle.ep_audit.specs.Tables.{agreed_in};
ghost use Rattle.ep_audit.specs.Turns.{taken_of};
ghost use Rattle.ep_audit.specs.Verdicts.{places_of};

use crate::happening::Happening;
use crate::lookups::entry_at;
use crate::table::agreed;
use ep_base::{Answer, Decree, InstanceId, ReplicaId, Reply};
use ep_exec::Executed;
use ep_journal::Journals;
use std::alloc::{AllocError, Global};

/// The reply that the answer has; absent where the proposal was lost.
fn reply_in(alloc: Global, answer: &Answer) -> Result<Reply, AllocError>
    ensures { IfOk result (λ r. r ≡ reported_by answer.now) }
{
    match answer {
        Answer::Lost => Ok(Reply::Absent),
        Answer::Replied(reply) => reply.copy(alloc),
    }
}

/// Adds the line of a command, unless it is a no-op.
fn add_line(
    alloc: Global,
    instance: InstanceId,
    decree: &Decree,
    answer: &Answer,
    lines: &mut Vec<Happening>,
) -> Result<(), AllocError>
    ensures { OnOk result (lines.new.items ≡ lines.old.items ++ line_at instance answer.now (Some decree.now)) }
{
    if decree.command.is_noop() {
        return Ok(());
    }
    let command = decree.command.copy(alloc)?;
    let reply = reply_in(alloc, answer)?;
    lines.push(Happening {
        instance,
        command,
        reply,
    })?;
    Ok(())
}

/// Adds the line of an execution, where it is the instance's first one, and no no-op's.
fn add_execution(
    alloc: Global,
    journals: &Journals,
    seen: &Executed,
    execution: &(InstanceId, Answer),
    lines: &mut Vec<Happening>,
) -> Result<(), AllocError>
    ensures { OnOk result (lines.new.items ≡ lines.old.items ++ line_of (agreed_in journals.now) seen.now.list execution.now.0 execution.now.1) }
{
    let (instance, answer) = execution;
    if seen.contains(*instance) {
        return Ok(());
    }
    if let Some(decree) = agreed(journals, *instance) {
        add_line(alloc, *instance, decree, answer, lines)?;
    }
    Ok(())
}

/// Adds the lines of the executions whose instances weren't seen before.
fn add_executions(
    alloc: Global,
    journals: &Journals,
    seen: &Executed,
    done: &[(InstanceId, Answer)],
    lines: &mut Vec<Happening>,
) -> Result<(), AllocError>
    ensures { OnOk result (lines.new.items ≡ lines.old.items ++ lines_of (agreed_in journals.now) seen.now.list done.now) }
{
    for execution in done {
        add_execution(alloc, journals, seen, execution, lines)?;
    }
    Ok(())
}

/// Marks an instance as seen.
fn see(seen: &mut Executed, instance: InstanceId) -> Result<(), AllocError>
    ensures { OnOk result ((i : ℕ) → Has seen.new.list i ↔ (Has seen.old.list i ⊎ (i ≡ instance))) }
{
    seen.reserve_one(instance)?;
    seen.add(instance);
    Ok(())
}

/// Marks the executions' instances as seen.
fn see_all(seen: &mut Executed, done: &[(InstanceId, Answer)]) -> Result<(), AllocError>
    ensures { OnOk result ((i : ℕ) → Has seen.new.list i ↔ (Has seen.old.list i ⊎ Has (order_of done.now) i)) }
{
    for (instance, _) in done {
        see(seen, *instance)?;
    }
    Ok(())
}

/// The commands that were executed, each once, in the order of first executions, with their replies; no-ops are left out. What is handed in are
/// the entries that execute something, in the schedule's order: no other one has a part in the history.
pub(crate) fn history_of(
    alloc: Global,
    journals: &Journals,
    executing: &[(ReplicaId, u32)],
) -> Result<Vec<Happening>, AllocError>
    requires { (s : List Scheduled) → IsSchedule (journals_of journals.now) s → executing.now ≡ places_of (taken_of false s) }
    ensures { IfOk result (λ v. (s : List Scheduled) → IsSchedule (journals_of journals.now) s → v.items ≡ lines_in (agreed_in journals.now) [] s) }
{
    journals.are_journals();
    journals.are_local_runs();
    let mut seen = Executed::new(alloc);
    let mut lines = Vec::new(alloc);
    for (replica, number) in executing {
        if let Some(entry) = entry_at(journals, *replica, *number) {
            let done = entry.done.as_slice();
            add_executions(alloc, journals, &seen, done, &mut lines)?;
            see_all(&mut seen, done)?;
        }
    }
    Ok(lines)
}
