//! The instances that their leaders have committed and not executed.

ghost use Rattle.std.specs.Prelude.{◌≡◌, ◌<◌, ◌≤◌, ◌↔◌, ◌++◌, ℕ, suc, List, Some, None, IsTrue, OnOk};
ghost use Rattle.ep_base.specs.Instances.{instance_of, highest_number};
ghost use Rattle.ep_base.specs.Quorums.{size};
ghost use Rattle.ep_ending.specs.Endings.{IsOwedBy, IsOwedLine, AddsIfOwed, AddsOwed, AddsOwedBefore};
ghost use Rattle.ep_ending.specs.Lines.{owed_line};

use crate::opened::journal_at;
use ep_base::{InstanceId, ReplicaId};
use ep_journal::{Journal, Journals};
use ep_report::{Part, push_parts};
use std::alloc::{AllocError, Global};

/// The replica's instance of this number.
fn instance_at(replica: ReplicaId, number: u16) -> InstanceId
    requires { (1 ≤ number) × (number ≤ highest_number) }
    ensures { result ≡ instance_of replica number }
{
    InstanceId::new(replica, number).unwrap()
}

/// Whether the entries commit the instance and don't execute it.
fn is_owed(journal: &Journal, instance: InstanceId) -> bool
    ensures { IsTrue result ↔ IsOwedBy journal.now instance }
{
    journal.committed(instance).is_some() && !journal.has_executed(instance)
}

/// Appends the line of an execution.
fn push_ready(
    text: &mut Vec<u8>,
    replica: ReplicaId,
    instance: InstanceId,
) -> Result<(), AllocError>
    ensures { OnOk result (text.new.items ≡ text.old.items ++ owed_line replica instance None) }
{
    push_parts(
        text,
        &[
            Part::Text(b"next  execute "),
            Part::Instance(instance),
            Part::Text(b" at replica "),
            Part::Number(replica.index() as u64),
            Part::Text(b"\n"),
        ],
    )
}

/// Appends the line of an execution that waits for this instance.
fn push_blocked(
    text: &mut Vec<u8>,
    replica: ReplicaId,
    instance: InstanceId,
    missing: InstanceId,
) -> Result<(), AllocError>
    ensures { OnOk result (text.new.items ≡ text.old.items ++ owed_line replica instance (Some missing)) }
{
    push_parts(
        text,
        &[
            Part::Text(b"then  execute "),
            Part::Instance(instance),
            Part::Text(b" at replica "),
            Part::Number(replica.index() as u64),
            Part::Text(b", once it has committed "),
            Part::Instance(missing),
            Part::Text(b"\n"),
        ],
    )
}

/// Appends the line of an execution, which may have to wait for an instance.
fn push_execution(
    text: &mut Vec<u8>,
    replica: ReplicaId,
    instance: InstanceId,
    missing: Option<InstanceId>,
) -> Result<(), AllocError>
    ensures { OnOk result (text.new.items ≡ text.old.items ++ owed_line replica instance missing) }
{
    match missing {
        None => push_ready(text, replica, instance),
        Some(missing) => push_blocked(text, replica, instance, missing),
    }
}

/// Appends the line of an execution that is owed.
#[tactic(auto, using(crate::proofs::Owing::one_owed))]
fn push_owed(
    alloc: Global,
    text: &mut Vec<u8>,
    journal: &Journal,
    instance: InstanceId,
) -> Result<(), AllocError>
    ensures { OnOk result ((line : List ℕ) × IsOwedLine journal.now instance line × (text.new.items ≡ text.old.items ++ line)) }
{
    let missing = journal.missing(alloc, instance)?;
    push_execution(text, journal.me(), instance, missing)
}

/// Appends the line of the instance, if its execution is owed.
#[tactic(auto, using(crate::proofs::Owing::is_settled, crate::proofs::Owing::is_reported))]
fn push_if_owed(
    alloc: Global,
    text: &mut Vec<u8>,
    journal: &Journal,
    instance: InstanceId,
) -> Result<(), AllocError>
    ensures { OnOk result (AddsIfOwed journal.now instance text.old.items text.new.items) }
{
    if is_owed(journal, instance) {
        push_owed(alloc, text, journal, instance)
    } else {
        Ok(())
    }
}

/// Appends the lines of the executions that the replica of this number owes, after those of the replicas before it.
fn push_all_owed(
    alloc: Global,
    text: &mut Vec<u8>,
    journals: &Journals,
    replica: u8,
) -> Result<(), AllocError>
    requires low { replica ≤ 6 }
    requires there { replica < size journals.now.faults }
    ensures { OnOk result ((first : List ℕ) → AddsOwedBefore journals.now (instance_of replica 0) first text.old.items → AddsOwedBefore journals.now (instance_of (suc replica) 0) first text.new.items) }
{
    let journal = journal_at(journals, replica);
    for number in 1..journal.highest() + 1 {
        push_if_owed(alloc, text, journal, instance_at(journal.me(), number))?;
    }
    Ok(())
}

/// Appends those of each replica.
pub(crate) fn push_each_owed(
    alloc: Global,
    text: &mut Vec<u8>,
    journals: &Journals,
) -> Result<(), AllocError>
    ensures { OnOk result (AddsOwed journals.now text.old.items text.new.items) }
{
    for replica in 0..journals.size().count() {
        push_all_owed(alloc, text, journals, replica)?;
    }
    Ok(())
}
