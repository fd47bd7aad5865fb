//! The audit of the nodes of a host.

ghost use Rattle.std.specs.Prelude.{◌≡◌, ◌++◌, [], ℕ, IfOk, IsOk, OnOk};
ghost use Rattle.ep_rules.specs.Audits.{IsAccepted};
ghost use Rattle.ep_journal.specs.Entries.{first_opening, journals_of};
ghost use Rattle.ep_journal.specs.Openings.{opens};
ghost use Rattle.ep_audit.specs.Audited.{IsAudited};
ghost use Rattle.ep_host.specs.Finishing.{IsFinished};
ghost use Rattle.ep_host.specs.Host.{IsHost, AllBegin, AllFrom};
ghost use Rattle.ep_host.specs.RingFinishing.{replicas_in, entries_in, their_journals, their_receipts};
ghost use Rattle.ep_rules.specs.Verdicts.{AreOwn};
ghost use Rattle.ep_replica.specs.Kept.{first_version};

use crate::account::taken_was_sent;
use crate::finished::Finished;
use crate::ring_node::RingNode;
use ep_audit::{Verdict, VerdictFault, audit};
use ep_journal::{Journal, Journals};
use ep_rules::Receipt;
use std::alloc::{AllocError, Global};

/// The receipts of all nodes, in their order.
fn receipts_of(alloc: Global, nodes: &[RingNode]) -> Result<Vec<Receipt>, AllocError>
    ensures { IfOk result (λ receipts. receipts.items ≡ their_receipts (replicas_in nodes.now)) }
{
    let mut receipts = Vec::new(alloc);
    for node in nodes {
        node.add_receipts(alloc, &mut receipts)?;
    }
    Ok(receipts)
}

/// The journals of the nodes, in their order.
fn collected(alloc: Global, nodes: Vec<RingNode>) -> Result<Vec<Journal>, AllocError>
    ensures { IfOk result (λ journals. journals.items ≡ replicas_in nodes.items) }
{
    let mut journals = Vec::new(alloc);
    match journals.reserve(nodes.len()) {
        Ok(()) => {
            for node in nodes {
                journals.push_reserved(node.into_journal());
            }
            Ok(journals)
        }
        Err(fault) => {
            drop(nodes);
            Err(fault)
        }
    }
}

/// The audit of journals with receipts that it accepts.
fn accepted(alloc: Global, journals: &Journals, receipts: &[Receipt]) -> Result<Verdict, AllocError>
    requires { IsAccepted (opens journals.now.opening) journals.now.faults (journals_of journals.now) receipts.now }
    ensures { IfOk result (λ v. IsAudited (opens journals.now.opening) journals.now.faults (journals_of journals.now) receipts.now v) }
{
    match audit(alloc, journals, receipts) {
        Ok(verdict) => Ok(verdict),
        Err(VerdictFault::Memory) => Err(AllocError),
        Err(VerdictFault::Fault(_)) => unreachable!(),
    }
}

/// The audit of the nodes of one host, with all their receipts. It never finds a fault. Running out of memory drops the nodes.
pub fn finish(alloc: Global, mut nodes: Vec<RingNode>) -> Result<Verdict, AllocError>
    requires { (f : ℕ) × IsHost f nodes.items }
    ensures verdict { (f : ℕ) → IsHost f nodes.items → IfOk result (λ v. IsAudited (opens (first_opening (replicas_in nodes.items))) f (their_journals (replicas_in nodes.items)) (their_receipts (replicas_in nodes.items)) v) }
    ensures begins { AllBegin nodes.items }
    ensures from { AllFrom nodes.items }
{
    taken_was_sent(nodes.as_mut_slice());
    let receipts = receipts_of(alloc, &nodes)?;
    let journals = collected(alloc, nodes)?;
    let journals = Journals::new(journals).unwrap();
    accepted(alloc, &journals, &receipts)
}

/// The journals of the nodes of one host, and their audit with receipts of which each is one of a node's own. It never finds a fault. Want of
/// memory drops the nodes.
pub fn finish_with(
    alloc: Global,
    mut nodes: Vec<RingNode>,
    receipts: &[Receipt],
) -> Result<Finished, AllocError>
    requires { (f : ℕ) × IsHost f nodes.items × AreOwn (opens (first_opening (replicas_in nodes.items))) f (their_journals (replicas_in nodes.items)) receipts.now }
    ensures finished { IfOk result (IsFinished receipts.now) }
    ensures accepted { IfOk result (λ r. IsOk r.verdict) }
    ensures version { IfOk result (λ r. r.journals.version ≡ first_version (replicas_in nodes.items)) }
    ensures opening { IfOk result (λ r. r.journals.opening ≡ first_opening (replicas_in nodes.items)) }
    ensures journals { (f : ℕ) → IsHost f nodes.items → IfOk result (λ r. (r.journals.faults ≡ f) × (r.journals.entries ≡ entries_in (replicas_in nodes.items))) }
    ensures begins { AllBegin nodes.items }
    ensures from { AllFrom nodes.items }
{
    taken_was_sent(nodes.as_mut_slice());
    let journals = collected(alloc, nodes)?;
    let journals = Journals::new(journals).unwrap();
    let verdict = accepted(alloc, &journals, receipts)?;
    Ok(Finished {
        journals,
        verdict: Ok(verdict),
    })
}
