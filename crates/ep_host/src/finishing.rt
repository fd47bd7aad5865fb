//! The audit of a host's journals.

ghost use Rattle.std.specs.Prelude.{◌≡◌, IfOk, vec_len};
ghost use Rattle.ep_base.specs.Quorums.{size};
ghost use Rattle.ep_journal.specs.Entries.{first_opening};
ghost use Rattle.ep_replica.specs.Kept.{first_version};
ghost use Rattle.ep_host.specs.Finishing.{IsFinished};

use crate::finished::Finished;
use ep_audit::{VerdictFault, audit};
use ep_journal::{Journal, Journals};
use ep_rules::Receipt;
use std::alloc::{AllocError, Global};

/// The audit of these journals with the receipts.
fn audited(alloc: Global, journals: Journals, receipts: &[Receipt]) -> Result<Finished, AllocError>
    ensures audited { IfOk result (IsFinished receipts.now) }
    ensures size { IfOk result (λ f. f.journals.faults ≡ journals.faults) }
    ensures version { IfOk result (λ f. f.journals.version ≡ journals.version) }
    ensures opening { IfOk result (λ f. f.journals.opening ≡ journals.opening) }
{
    match audit(alloc, &journals, receipts) {
        Ok(verdict) => Ok(Finished {
            journals,
            verdict: Ok(verdict),
        }),
        Err(VerdictFault::Fault(fault)) => Ok(Finished {
            journals,
            verdict: Err(fault),
        }),
        Err(VerdictFault::Memory) => {
            drop(journals);
            Err(AllocError)
        }
    }
}

/// The audit of a cluster's journals, one for each replica, in replica order, which all start as the first one does. A host's always are these.
pub fn finished(
    alloc: Global,
    journals: Vec<Journal>,
    receipts: &[Receipt],
) -> Result<Finished, AllocError>
    ensures audited { IfOk result (IsFinished receipts.now) }
    ensures size { IfOk result (λ f. size f.journals.faults ≡ vec_len journals) }
    ensures version { IfOk result (λ f. f.journals.version ≡ first_version journals.items) }
    ensures opening { IfOk result (λ f. f.journals.opening ≡ first_opening journals.items) }
{
    match Journals::new(journals) {
        Ok(journals) => audited(alloc, journals, receipts),
        Err(_) => Err(AllocError),
    }
}
