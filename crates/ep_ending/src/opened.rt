//! The instances that are open.

ghost use Rattle.std.specs.Prelude.{◌≡◌, ◌≤◌, ◌<◌, ◌++◌, ℕ, suc, Option, Some, OnOk};
ghost use Rattle.ep_base.specs.Quorums.{size};
ghost use Rattle.ep_ending.specs.Endings.{log_at, records_at, AddsOpen, IsLeastBelow, IsNextIn};
ghost use Rattle.ep_ending.specs.Lines.{open_line, more_line};
ghost use Rattle.ep_space.specs.Open.{lesser, IsNextOpen};

use crate::named::push_names;
use ep_base::{InstanceId, ReplicaId, Size};
use ep_journal::{Journal, Journals};
use ep_report::{Part, push_parts};
use std::alloc::AllocError;

/// How many open instances have a line, at most: each is looked for by a pass over all records and their dependencies.
const MOST_LINES: u8 = 20;

/// The journal of the replica of this number.
#[tactic(auto, using(crate::proofs::Logs::log_is))]
pub(crate) fn journal_at(journals: &Journals, replica: u8) -> &Journal
    requires low { replica ≤ 6 }
    requires there { replica < size journals.now.faults }
    ensures { result.now ≡ log_at journals.now replica }
{
    match journals.get(ReplicaId::from_valid(replica)) {
        Some(journal) => journal,
        None => unreachable!(),
    }
}

/// The lesser of two, where there are two.
fn lesser(found: Option<InstanceId>, other: Option<InstanceId>) -> Option<InstanceId>
    ensures { result ≡ lesser found other }
{
    let Some(least) = found else {
        return other;
    };
    let Some(another) = other else {
        return found;
    };
    if another < least { other } else { found }
}

/// The least that was found so far and that is open at the replica of this number.
#[tactic(auto, using(crate::proofs::Finding::least_more))]
fn least_with(
    journals: &Journals,
    after: &Option<InstanceId>,
    found: Option<InstanceId>,
    replica: u8,
) -> Option<InstanceId>
    requires low { replica ≤ 6 }
    requires there { replica < size journals.now.faults }
    ensures { IsLeastBelow journals.now after.now replica found → IsLeastBelow journals.now after.now (suc replica) result }
{
    lesser(found, journal_at(journals, replica).next_open(*after))
}

/// The least instance above this one, where there is one, that is open at a replica.
fn next_open(journals: &Journals, after: Option<InstanceId>) -> Option<InstanceId>
    ensures { IsNextIn journals.now after result }
{
    let mut found = None;
    for replica in 0..journals.size().count() {
        found = least_with(journals, &after, found, replica);
    }
    found
}

/// Appends the line of an open instance.
fn push_open(text: &mut Vec<u8>, cluster: Size, instance: InstanceId) -> Result<(), AllocError>
    ensures { OnOk result (text.new.items ≡ text.old.items ++ open_line cluster instance) }
{
    push_parts(
        text,
        &[
            Part::Text(b"next  recover "),
            Part::Instance(instance),
            Part::Text(b" at any replica that reaches "),
        ],
    )?;
    push_names(text, cluster, instance.replica())?;
    text.push(b'\n')?;
    Ok(())
}

/// Appends that more are open, from this one on.
fn push_more(text: &mut Vec<u8>, instance: InstanceId) -> Result<(), AllocError>
    ensures { OnOk result (text.new.items ≡ text.old.items ++ more_line (Some instance)) }
{
    push_parts(
        text,
        &[
            Part::Text(b"more  are open, from "),
            Part::Instance(instance),
            Part::Text(b" on\n"),
        ],
    )
}

/// Appends the line of each instance that is open at a replica, up to the twentieth, and then which is the next.
pub(crate) fn push_all_open(text: &mut Vec<u8>, journals: &Journals) -> Result<(), AllocError>
    ensures { OnOk result (AddsOpen journals.now text.old.items text.new.items) }
{
    let mut reported = 0;
    let mut next = next_open(journals, None);
    while let Some(instance) = next {
        // (that it is in range is known by asking for its number)
        let _number = instance.number();
        if reported == MOST_LINES {
            return push_more(text, instance);
        }
        push_open(text, journals.size(), instance)?;
        next = next_open(journals, Some(instance));
        reported += 1;
    }
    Ok(())
}
