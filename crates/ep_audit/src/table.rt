//! The table of what is committed.

ghost use Rattle.std.specs.Prelude.{◌≡◌, ◌≤◌, ◌<◌, ◌+◌, ℕ, None, OnOk, IfOk, option_copied};
ghost use Rattle.ep_base.specs.Instances.{instance_of, number_of, highest_number};
ghost use Rattle.ep_rules.specs.Verdicts.{IsTable};
ghost use Rattle.ep_journal.specs.Entries.{journals_of};
ghost use Rattle.ep_audit.specs.Tables.{agreed_in, and_row, Covers};
ghost use Rattle.ep_journal.specs.Openings.{opens};

use ep_base::{Decree, InstanceId, ReplicaId};
use ep_journal::Journals;
use std::alloc::{AllocError, Global};

/// What the journals commit in the instance, the least replica's where several do.
pub(crate) fn agreed(journals: &Journals, instance: InstanceId) -> Option<&Decree>
    ensures { option_copied result ≡ agreed_in journals.now instance }
{
    for replica in 0..journals.size().count() {
        let id = ReplicaId::new(replica).unwrap();
        if let Some(decree) = journals.get(id).unwrap().committed(instance) {
            return Some(decree);
        }
    }
    None
}

/// The greater of two numbers.
fn greater(first: u16, second: u16) -> u16
    ensures first { first ≤ result }
    ensures second { second ≤ result }
    ensures most { (most : ℕ) → first ≤ most → second ≤ most → result ≤ most }
{
    if first < second { second } else { first }
}

/// A number above which the journals commit nothing in any instance.
fn top_of(journals: &Journals) -> u16
    ensures bounded { result ≤ highest_number }
    ensures none { (i : ℕ) → result < number_of i → agreed_in journals.now i ≡ None }
{
    let mut top = 0;
    for replica in 0..journals.size().count() {
        let id = ReplicaId::new(replica).unwrap();
        top = greater(top, journals.get(id).unwrap().highest());
    }
    top
}

/// Adds what is agreed on in the instance, if something is.
fn add_agreed(
    alloc: Global,
    journals: &Journals,
    instance: InstanceId,
    table: &mut Vec<(InstanceId, Decree)>,
) -> Result<(), AllocError>
    ensures { OnOk result (table.new.items ≡ and_row table.old.items instance (agreed_in journals.now instance)) }
{
    if let Some(decree) = agreed(journals, instance) {
        let decree = decree.copy(alloc)?;
        table.push((instance, decree))?;
    }
    Ok(())
}

/// Adds what is agreed on in the instances up to this number that the replica leads.
fn add_led(
    alloc: Global,
    journals: &Journals,
    leader: ReplicaId,
    top: u16,
    table: &mut Vec<(InstanceId, Decree)>,
) -> Result<(), AllocError>
    requires { top ≤ highest_number }
    ensures { OnOk result (Covers (agreed_in journals.now) (instance_of leader 1) table.old.items → Covers (agreed_in journals.now) (instance_of leader (top + 1)) table.new.items) }
{
    for place in 0..top {
        let instance = InstanceId::new(leader, place + 1).unwrap();
        add_agreed(alloc, journals, instance, table)?;
    }
    Ok(())
}

/// All that the journals commit, in rising order of instances.
pub(crate) fn table_of(
    alloc: Global,
    journals: &Journals,
) -> Result<Vec<(InstanceId, Decree)>, AllocError>
    ensures { IfOk result (λ v. IsTable (opens journals.now.opening) journals.now.faults (journals_of journals.now) v.items) }
{
    journals.commit_in_range();
    let top = top_of(journals);
    let mut table = Vec::new(alloc);
    for leader in 0..journals.size().count() {
        let leader = ReplicaId::new(leader).unwrap();
        add_led(alloc, journals, leader, top, &mut table)?;
    }
    Ok(table)
}
