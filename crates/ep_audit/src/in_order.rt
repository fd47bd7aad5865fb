//! Entries of journals in the schedule's order.

ghost use Rattle.std.specs.Prelude.{◌≡◌, List, IfOk, length, replicate};
ghost use Rattle.ep_base.specs.Quorums.{size};
ghost use Rattle.ep_rules.specs.Journals.{Scheduled, IsSchedule};
ghost use Rattle.ep_journal.specs.Entries.{journals_of};
ghost use Rattle.ep_audit.specs.Turns.{all_taken, taken_of, AreFirst};
ghost use Rattle.ep_audit.specs.Verdicts.{places_of};

use crate::entry_place::{EntryPlace, first, least};
use ep_base::ReplicaId;
use ep_journal::Journals;
use std::alloc::{AllocError, Global};

/// A list of zeros, one for each replica.
fn none_done(alloc: Global, journals: &Journals) -> Result<Vec<usize>, AllocError>
    ensures { IfOk result (λ v. v.items ≡ replicate (size journals.now.faults) 0) }
{
    let count = usize::from(journals.size().count());
    let mut done = Vec::new(alloc);
    for _ in 0..count {
        done.push(0)?;
    }
    Ok(done)
}

/// The first entry of each replica's journal that the merge takes.
fn first_of_each(
    alloc: Global,
    all: bool,
    journals: &Journals,
) -> Result<Vec<Option<EntryPlace>>, AllocError>
    ensures { IfOk result (λ v. AreFirst (size journals.now.faults) (all_taken all (journals_of journals.now)) v.items) }
{
    let count = journals.size().count();
    let mut turns = Vec::with_capacity(alloc, usize::from(count))?;
    for replica in 0..count {
        let id = ReplicaId::new(replica).unwrap();
        turns.push(first(all, journals, id, 0))?;
    }
    Ok(turns)
}

/// The entries of all journals, by stamp and replica: each as its replica with its number. All of them, or those alone that execute something.
pub fn merged(
    alloc: Global,
    all: bool,
    journals: &Journals,
) -> Result<Vec<(ReplicaId, u32)>, AllocError>
    ensures { IfOk result (λ v. (s : List Scheduled) → IsSchedule (journals_of journals.now) s → v.items ≡ places_of (taken_of all s)) }
{
    journals.are_local_runs();
    let mut done = none_done(alloc, journals)?;
    let mut turns = first_of_each(alloc, all, journals)?;
    let mut order = Vec::new(alloc);
    while let Some(turn) = least(&turns) {
        order.push((turn.replica, turn.number))?;
        let place = usize::from(turn.replica.index());
        let number = turn.number as usize;
        done[place] = number;
        turns[place] = first(all, journals, turn.replica, number);
    }
    Ok(order)
}
