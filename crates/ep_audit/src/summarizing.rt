//! The audit for a report.

ghost use Rattle.std.specs.Prelude.{IfOk, IfErr};
ghost use Rattle.ep_journal.specs.Entries.{journals_of};
ghost use Rattle.ep_journal.specs.Openings.{opens};
ghost use Rattle.ep_audit.specs.Audited.{IsRefused, IsSummarized};

use crate::matching::first_fault;
use crate::summary::Summary;
use crate::verdict_fault::VerdictFault;
use ep_journal::Journals;
use ep_rules::Receipt;
use std::alloc::Global;

/// Audits the journals of a cluster, with receipts, as `audit` does, for a report: of a verdict it makes all but the schedule.
pub fn audit_summary(
    alloc: Global,
    journals: &Journals,
    receipts: &[Receipt],
) -> Result<Summary, VerdictFault>
    ensures ok { IfOk result (λ s. IsSummarized (opens journals.now.opening) journals.now.faults (journals_of journals.now) receipts.now s) }
    ensures refused { IfErr result (λ e. IsRefused (opens journals.now.opening) journals.now.faults (journals_of journals.now) receipts.now e) }
{
    let found = first_fault(alloc, journals, receipts)?;
    match found {
        Some(fault) => Err(VerdictFault::Fault(fault)),
        None => Ok(Summary::of(alloc, journals)?),
    }
}
