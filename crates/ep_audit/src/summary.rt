//! What a report needs of journals.

ghost use Rattle.std.specs.Prelude.{IfOk, List};
ghost use Rattle.ep_journal.specs.Entries.{journals_of};
ghost use Rattle.ep_journal.specs.Openings.{opens};
ghost use Rattle.ep_audit.specs.Audited.{IsSummarized};
ghost use Rattle.ep_audit.specs.Verdicts.{IsSummary};
ghost use Rattle.ep_rules.specs.Audits.{IsAccepted};
ghost use Rattle.ep_rules.specs.declared.receipt.Receipt.{Receipt};

use crate::closing::Closing;
use crate::happening::Happening;
use crate::history::history_of;
use crate::in_order::merged;
use crate::seals::closing_of;
use crate::table::table_of;
use ep_base::{Decree, InstanceId};
use ep_journal::Journals;
use std::alloc::{AllocError, Global};

/// What the journals of a cluster say, without their schedule. It costs less than a verdict: only the entries that execute something are merged.
#[derive(Drop)]
pub struct Summary {
    /// All that is committed, no-ops too, in rising order of instances.
    pub committed: Vec<(InstanceId, Decree)>,
    /// The commands that were executed, each once, in the order of first executions, with their replies.
    pub history: Vec<Happening>,
    /// The first seal of the history, with the least stamp of an entry that executes it; none where the history has no seal.
    pub closing: Option<Closing>,
}

impl Summary {
    /// What the journals say; where several commit in an instance, what the least of these replicas commits. With receipts that an audit accepts, it is
    /// what `audit_summary` answers: who knows that an audit accepts them needs none.
    pub fn of(alloc: Global, journals: &Journals) -> Result<Summary, AllocError>
        ensures says { IfOk result (λ s. IsSummary (opens journals.now.opening) journals.now.faults (journals_of journals.now) s) }
        ensures accepted { IfOk result (λ s. (receipts : List Receipt) → IsAccepted (opens journals.now.opening) journals.now.faults (journals_of journals.now) receipts → IsSummarized (opens journals.now.opening) journals.now.faults (journals_of journals.now) receipts s) }
    {
        journals.are_local_runs();
        let size = journals.size();
        let _faults = size.faults();
        let executing = merged(alloc, false, journals)?;
        let committed = table_of(alloc, journals)?;
        let history = history_of(alloc, journals, &executing)?;
        drop(executing);
        let closing = closing_of(alloc, journals, &history)?;
        Ok(Summary {
            committed,
            history,
            closing,
        })
    }
}
