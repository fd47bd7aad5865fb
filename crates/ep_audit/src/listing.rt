//! All faults of journals and receipts.

ghost use Rattle.std.specs.Prelude.{◌≡◌, ◌≤◌, ◌++◌, IfOk, OnOk};
ghost use Rattle.ep_base.specs.Quorums.{size};
ghost use Rattle.ep_journal.specs.Entries.{AreJournals, entries_at, journals_of};
ghost use Rattle.ep_journal.specs.Openings.{opens};
ghost use Rattle.ep_audit.specs.Listed.{listed, faults_in, faults_below, receipt_faults, all_faults, IsFirst};
ghost use Rattle.ep_audit.specs.Proposing.{AreRows};

use crate::audit_fault::AuditFault;
use crate::claims::receipt_fault;
use crate::handlings::entry_fault;
use crate::lookups::entries_of;
use crate::proposals::Proposals;
use ep_base::ReplicaId;
use ep_journal::{Entry, Journals};
use ep_rules::Receipt;
use std::alloc::{AllocError, Global};

/// Appends the fault, if there is one.
fn push_some(found: &mut Vec<AuditFault>, fault: Option<AuditFault>) -> Result<(), AllocError>
    ensures { OnOk result (found.new.items ≡ found.old.items ++ listed fault) }
{
    if let Some(fault) = fault {
        found.push(fault)?;
    }
    Ok(())
}

/// Appends the faults of these entries of the replica.
fn push_faults_in(
    journals: &Journals,
    replica: ReplicaId,
    entries: &[Entry],
    found: &mut Vec<AuditFault>,
) -> Result<(), AllocError>
    requires journals { AreJournals journals.now }
    ensures { OnOk result (found.new.items ≡ found.old.items ++ faults_in journals.now replica entries.now) }
{
    for entry in entries {
        push_some(found, entry_fault(journals, replica, entry))?;
    }
    Ok(())
}

/// Appends the faults of the entries of the replica of this number.
fn push_faults_at(
    journals: &Journals,
    replica: u8,
    found: &mut Vec<AuditFault>,
) -> Result<(), AllocError>
    requires journals { AreJournals journals.now }
    requires replica { replica ≤ 6 }
    ensures { OnOk result (found.new.items ≡ found.old.items ++ faults_in journals.now replica (entries_at journals.now replica)) }
{
    match ReplicaId::new(replica) {
        Ok(replica) => push_faults_in(journals, replica, entries_of(journals, replica), found),
        Err(_) => unreachable!(),
    }
}

/// The faults of the entries of as many replicas, by replica and entry.
fn faults_below(
    alloc: Global,
    journals: &Journals,
    count: u8,
) -> Result<Vec<AuditFault>, AllocError>
    requires journals { AreJournals journals.now }
    requires replicas { count ≤ 7 }
    ensures { IfOk result (λ found. found.items ≡ faults_below journals.now count) }
{
    let mut found = Vec::new(alloc);
    for replica in 0..count {
        push_faults_at(journals, replica, &mut found)?;
    }
    Ok(found)
}

/// Appends the faults of the receipts, which are counted from 1.
fn push_receipt_faults(
    journals: &Journals,
    proposals: &Proposals,
    receipts: &[Receipt],
    found: &mut Vec<AuditFault>,
) -> Result<(), AllocError>
    requires journals { AreJournals journals.now }
    requires proposals { AreRows journals.now (size journals.now.faults) proposals.now }
    ensures { OnOk result (found.new.items ≡ found.old.items ++ receipt_faults journals.now 1 receipts.now) }
{
    for (place, receipt) in receipts.iter().enumerate() {
        push_some(
            found,
            receipt_fault(journals, proposals, place + 1, receipt),
        )?;
    }
    Ok(())
}

/// Appends the faults of the receipts of as many replicas.
fn push_claims(
    alloc: Global,
    journals: &Journals,
    count: u8,
    receipts: &[Receipt],
    found: &mut Vec<AuditFault>,
) -> Result<(), AllocError>
    requires journals { AreJournals journals.now }
    requires all { count ≡ size journals.now.faults }
    requires few { count ≤ 7 }
    ensures { OnOk result (found.new.items ≡ found.old.items ++ receipt_faults journals.now 1 receipts.now) }
{
    let proposals = Proposals::of(alloc, journals, count)?;
    push_receipt_faults(journals, &proposals, receipts, found)
}

/// All faults of the journals and the receipts: of handled frames by replica and entry, then of receipts in their order.
/// There are none exactly where an audit accepts, and the first one is that of `first_fault`.
pub fn faults(
    alloc: Global,
    journals: &Journals,
    receipts: &[Receipt],
) -> Result<Vec<AuditFault>, AllocError>
    ensures all { IfOk result (λ found. found.items ≡ all_faults journals.now receipts.now) }
    ensures first { IfOk result (λ found. IsFirst (opens journals.now.opening) journals.now.faults (journals_of journals.now) receipts.now found.items) }
{
    journals.are_journals();
    let count = journals.size().count();
    let mut found = faults_below(alloc, journals, count)?;
    push_claims(alloc, journals, count, receipts, &mut found)?;
    Ok(found)
}
