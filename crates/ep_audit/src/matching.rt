//! The first fault of journals and receipts.

ghost use Rattle.std.specs.Prelude.{IfNone, IfOk, IfSome};
ghost use Rattle.ep_journal.specs.Entries.{journals_of};
ghost use Rattle.ep_audit.specs.Faults.{fault_of};
ghost use Rattle.ep_rules.specs.Audits.{IsAccepted, IsFault};
ghost use Rattle.ep_journal.specs.Openings.{opens};

use crate::audit_fault::AuditFault;
use crate::claims::first_claim;
use crate::handlings::first_handling;
use ep_journal::Journals;
use ep_rules::Receipt;
use std::alloc::{AllocError, Global};

/// The first fault of the journals and the receipts: of handled frames by replica and entry, then of receipts in
/// their order. None where each handled frame was sent, by an entry of a lower stamp, and each receipt agrees with the
/// journals.
pub fn first_fault(
    alloc: Global,
    journals: &Journals,
    receipts: &[Receipt],
) -> Result<Option<AuditFault>, AllocError>
    ensures accepted { IfOk result (λ found. IfNone found (IsAccepted (opens journals.now.opening) journals.now.faults (journals_of journals.now) receipts.now)) }
    ensures fault { IfOk result (λ found. IfSome found (λ fault. IsFault (opens journals.now.opening) journals.now.faults (journals_of journals.now) receipts.now (fault_of fault))) }
{
    journals.are_journals();
    let count = journals.size().count();
    match first_handling(journals, count) {
        Some(fault) => Ok(Some(fault)),
        None => first_claim(alloc, journals, count, receipts),
    }
}
