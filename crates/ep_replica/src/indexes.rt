//! What a replica keeps beside its journal.

ghost use Rattle.std.specs.Prelude.{◌<◌, ◌≤◌, length, IfOk, IfErr, OnOk};
ghost use Rattle.ep_rules.specs.Journals.{AreClocked};
ghost use Rattle.ep_journal.specs.Entries.{entries_of};
ghost use Rattle.ep_replica.specs.Blockers.{Remembers};
ghost use Rattle.ep_replica.specs.FirstExecutions.{AreFirsts};
ghost use Rattle.ep_replica.specs.Resuming.{IsNoReplica};
ghost use Rattle.ep_replica.specs.Slots.{HoldsProposals};

use crate::clock::first_unclocked;
use crate::first_executions::FirstExecutions;
use crate::remembered::Remembered;
use crate::resume_fault::ResumeFault;
use crate::slots::Slots;
use ep_journal::Journal;
use std::alloc::Global;

/// What a replica proposed, where its instances were first executed, and which are due.
#[derive(Drop)]
pub(crate) struct Indexes {
    pub slots: Slots,
    pub firsts: FirstExecutions,
    pub remembered: Remembered,
}

/// Those of the replica whose journal this is, where it is clocked.
pub(crate) fn indexes_of(alloc: Global, journal: &Journal) -> Result<Indexes, ResumeFault>
    ensures clocked { OnOk result (AreClocked journal.now.opening.base_stamp (entries_of journal.now.entries)) }
    ensures slots { IfOk result (λ i. HoldsProposals journal.now.me journal.now.entries i.slots) }
    ensures some { OnOk result (0 < journal.now.faults) }
    ensures remembered { IfOk result (λ i. Remembers journal.now i.remembered.due i.remembered.blockers) }
    ensures fits { IfOk result (λ i. length i.remembered.blockers ≤ length i.remembered.due) }
    ensures firsts { IfOk result (λ i. AreFirsts journal.now.me journal.now.entries i.firsts) }
    ensures refused { IfErr result (λ fault. IsNoReplica journal.now fault) }
{
    let base_stamp = journal.opening().base_stamp();
    if let Some(number) = first_unclocked(base_stamp, journal.entries()) {
        return Err(ResumeFault::NotClocked(number));
    }
    let _faults = journal.size().faults();
    let slots = Slots::of(alloc, journal.me(), journal.entries())?;
    let firsts = FirstExecutions::of(alloc, journal.me(), journal.entries())?;
    let remembered = Remembered::all_due(alloc, journal.highest())?;
    Ok(Indexes {
        slots,
        firsts,
        remembered,
    })
}
