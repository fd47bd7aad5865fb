//! Receipts: each was proposed and executed as it says, and later than its client had seen.

ghost use Rattle.std.specs.Prelude.{◌≡◌, ◌≤◌, IfOk};
ghost use Rattle.ep_base.specs.Quorums.{size};
ghost use Rattle.ep_journal.specs.Entries.{AreJournals};
ghost use Rattle.ep_audit.specs.Claims.{proposal_of, is_proposed, is_earlier, is_known, receipt_fault, first_of};
ghost use Rattle.ep_audit.specs.Proposing.{AreRows};

use crate::audit_fault::AuditFault;
use crate::lookups::{entries_of, has_done, is_request};
use crate::proposals::Proposals;
use ep_journal::Journals;
use ep_rules::Receipt;
use std::alloc::{AllocError, Global};

/// Whether the receipt's instance was proposed for its client and request.
fn is_proposed(journals: &Journals, proposals: &Proposals, receipt: &Receipt) -> bool
    requires journals { AreJournals journals.now }
    requires proposals { AreRows journals.now (size journals.now.faults) proposals.now }
    ensures { result ≡ is_proposed (proposal_of journals.now receipt.now.instance) receipt.now.client receipt.now.request }
{
    match proposals.find(journals, receipt.instance) {
        Some(proposal) => is_request(&proposal.event, receipt.client, receipt.request),
        None => false,
    }
}

/// Whether the receipt's instance was proposed with a greater stamp than its client had seen.
fn is_later(journals: &Journals, proposals: &Proposals, receipt: &Receipt) -> bool
    requires journals { AreJournals journals.now }
    requires proposals { AreRows journals.now (size journals.now.faults) proposals.now }
    ensures { result ≡ is_earlier receipt.now.seen (proposal_of journals.now receipt.now.instance) }
{
    match proposals.find(journals, receipt.instance) {
        Some(proposal) => receipt.seen < proposal.stamp.ticks(),
        None => false,
    }
}

/// Whether the receipt's command was proposed and executed, as it says.
fn is_known(journals: &Journals, proposals: &Proposals, receipt: &Receipt) -> bool
    requires journals { AreJournals journals.now }
    requires proposals { AreRows journals.now (size journals.now.faults) proposals.now }
    ensures { result ≡ is_known journals.now receipt.now }
{
    is_proposed(journals, proposals, receipt)
        && has_done(
            entries_of(journals, receipt.replica),
            receipt.entry,
            receipt.stamp,
            receipt.instance,
            &receipt.answer,
        )
}

/// What is wrong with the receipt of this place.
pub(crate) fn receipt_fault(
    journals: &Journals,
    proposals: &Proposals,
    place: usize,
    receipt: &Receipt,
) -> Option<AuditFault>
    requires journals { AreJournals journals.now }
    requires proposals { AreRows journals.now (size journals.now.faults) proposals.now }
    ensures { result ≡ receipt_fault journals.now place receipt.now }
{
    if !is_known(journals, proposals, receipt) {
        return Some(AuditFault::UnknownReceipt(place));
    }
    if !is_later(journals, proposals, receipt) {
        return Some(AuditFault::CallerOrder(place));
    }
    None
}

/// The first receipt that doesn't agree with the journals, counted from 1, and what is wrong with it.
fn first_among(
    journals: &Journals,
    proposals: &Proposals,
    receipts: &[Receipt],
) -> Option<AuditFault>
    requires journals { AreJournals journals.now }
    requires proposals { AreRows journals.now (size journals.now.faults) proposals.now }
    ensures { result ≡ first_of journals.now 1 receipts.now }
{
    for (place, receipt) in receipts.iter().enumerate() {
        if let Some(fault) = receipt_fault(journals, proposals, place + 1, receipt) {
            return Some(fault);
        }
    }
    None
}

/// The first receipt that doesn't agree with the journals of as many replicas, and what is wrong with it.
pub(crate) fn first_claim(
    alloc: Global,
    journals: &Journals,
    count: u8,
    receipts: &[Receipt],
) -> Result<Option<AuditFault>, AllocError>
    requires journals { AreJournals journals.now }
    requires all { count ≡ size journals.now.faults }
    requires few { count ≤ 7 }
    ensures { IfOk result (λ found. found ≡ first_of journals.now 1 receipts.now) }
{
    let proposals = Proposals::of(alloc, journals, count)?;
    Ok(first_among(journals, &proposals, receipts))
}
