//! The audit.

ghost use Rattle.std.specs.Prelude.{IfOk, IfErr};
ghost use Rattle.ep_journal.specs.Entries.{journals_of};
ghost use Rattle.ep_journal.specs.Openings.{opens};
ghost use Rattle.ep_audit.specs.Audited.{IsAudited, IsRefused};

use crate::matching::first_fault;
use crate::verdict::Verdict;
use crate::verdict_fault::VerdictFault;
use ep_journal::Journals;
use ep_rules::Receipt;
use std::alloc::Global;

/// Audits the journals of a cluster, with receipts.
///
/// The verdict, exactly where each handled frame is, byte for byte, the one that its sender's entry sent, with a lower
/// stamp, and each receipt agrees with the journals: then the journals merge into a run of the protocol, agree on what
/// they commit, keep it, and commit no command that its instance's leader didn't propose; and they make one history.
/// Every executed reply is one map's reply, from the journals' opening on, at its command's place there, and each caller's order is kept. Otherwise the first fault: of handled frames by replica and entry, then of receipts in order.
pub fn audit(
    alloc: Global,
    journals: &Journals,
    receipts: &[Receipt],
) -> Result<Verdict, VerdictFault>
    ensures ok { IfOk result (λ v. IsAudited (opens journals.now.opening) journals.now.faults (journals_of journals.now) receipts.now v) }
    ensures refused { IfErr result (λ e. IsRefused (opens journals.now.opening) journals.now.faults (journals_of journals.now) receipts.now e) }
{
    journals.are_local_runs();
    let size = journals.size();
    let _faults = size.faults();
    let found = first_fault(alloc, journals, receipts)?;
    match found {
        Some(fault) => Err(VerdictFault::Fault(fault)),
        None => Ok(Verdict::of(alloc, journals)?),
    }
}
