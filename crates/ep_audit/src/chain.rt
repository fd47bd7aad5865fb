//! The audit of a chain: generations, one after the other.

ghost use Rattle.std.specs.Prelude.{◌≡◌, ◌<◌, ◌≤◌, ◌++◌, [], ◌∷◌, length, IfOk, IfErr, Some, MatchOption};
ghost use Rattle.ep_audit.specs.Chained.{AreLinked, GoesOn, IsChained, IsChainRefused, IsJudged, IsParted, map_after};
ghost use Rattle.ep_audit.specs.Differences.{IsLeastDifference};
ghost use Rattle.ep_audit.specs.Following.{IsUnfollowed, IsUnjudged};

use crate::auditing::audit;
use crate::chain_fault::ChainFault;
use crate::chain_link::ChainLink;
use crate::chain_verdict_fault::ChainVerdictFault;
use crate::closing::Closing;
use crate::difference::first_difference;
use crate::verdict::Verdict;
use crate::verdict_fault::VerdictFault;
use ep_base::Key;
use std::alloc::{AllocError, Global};

/// The least key that the generation opens with another value of than the history of the one before leaves; none where it opens with just
/// that map.
fn opens_otherwise(
    alloc: Global,
    before: &ChainLink,
    verdict: &Verdict,
    link: &ChainLink,
) -> Result<Option<Key>, AllocError>
    ensures { IfOk result (λ key. MatchOption key (link.now.journals.opening.contents ≡ map_after before.now verdict.now) (λ k. IsLeastDifference link.now.journals.opening.contents (map_after before.now verdict.now) k)) }
{
    let left = verdict.contents(alloc, &before.journals)?;
    first_difference(alloc, link.journals.opening().contents(), &left)
}

/// Why the generation doesn't go on from the one before, which this seal closed.
#[tactic(auto, using(crate::proofs::Linking::goes_on, crate::proofs::Linking::not_next))]
fn parting(
    alloc: Global,
    before: &ChainLink,
    verdict: &Verdict,
    closing: &Closing,
    link: &ChainLink,
) -> Result<Option<ChainFault>, AllocError>
    requires { verdict.now.closing ≡ Some closing.now }
    ensures { IfOk result (λ fault. MatchOption fault (GoesOn before.now verdict.now link.now) (λ f. IsParted before.now verdict.now closing.now link.now f)) }
{
    link.journals.are_journals();
    let number = u64::from(link.journals.version().generation());
    let number_before = u64::from(before.journals.version().generation());
    if number != number_before + 1 {
        return Ok(Some(ChainFault::NotConsecutive));
    }
    let opening = link.journals.opening();
    if let Some(key) = opens_otherwise(alloc, before, verdict, link)? {
        return Ok(Some(ChainFault::OpeningDiffers(key)));
    }
    if opening.base_stamp() < closing.stamp.ticks() {
        return Ok(Some(ChainFault::StampsGoBack));
    }
    Ok(None)
}

/// The verdict of the generation's own audit.
fn judge(alloc: Global, link: &ChainLink, place: usize) -> Result<Verdict, ChainVerdictFault>
    ensures ok { IfOk result (λ v. IsJudged link.now v) }
    ensures refused { IfErr result (λ e. IsUnjudged link.now place e) }
{
    match audit(alloc, &link.journals, &link.receipts) {
        Ok(verdict) => Ok(verdict),
        Err(VerdictFault::Memory) => Err(ChainVerdictFault::Memory),
        Err(VerdictFault::Fault(fault)) => Err(ChainVerdictFault::Fault(
            place,
            ChainFault::Audit(fault),
        )),
    }
}

/// The verdict of the generation, which goes on from the one before.
fn follow(
    alloc: Global,
    before: &ChainLink,
    verdict: &Verdict,
    link: &ChainLink,
    place: usize,
) -> Result<Verdict, ChainVerdictFault>
    requires { 1 ≤ place }
    ensures ok { IfOk result (λ v. IsJudged link.now v × GoesOn before.now verdict.now link.now) }
    ensures refused { IfErr result (λ e. IsUnfollowed before.now verdict.now link.now place e) }
{
    let Some(closing) = &verdict.closing else {
        return Err(ChainVerdictFault::Fault(place - 1, ChainFault::NotClosed));
    };
    let next = match judge(alloc, link, place) {
        Ok(next) => next,
        Err(refusal) => return Err(refusal),
    };
    match parting(alloc, before, verdict, closing, link)? {
        None => Ok(next),
        Some(fault) => Err(ChainVerdictFault::Fault(place, fault)),
    }
}

/// The verdict of the generation at this place, whose verdicts of those before are given.
fn next_verdict(
    alloc: Global,
    links: &[ChainLink],
    verdicts: &[Verdict],
    place: usize,
) -> Result<Verdict, ChainVerdictFault>
    requires there { place < length links.now }
    requires count { length verdicts.now ≡ place }
    requires linked { AreLinked links.now verdicts.now }
    ensures ok { IfOk result (λ v. AreLinked links.now (verdicts.now ++ v ∷ [])) }
    ensures refused { IfErr result (λ e. IsChainRefused links.now e) }
{
    let link = &links[place];
    if place == 0 {
        return judge(alloc, link, place);
    }
    follow(alloc, &links[place - 1], &verdicts[place - 1], link, place)
}

/// Audits generations, one after the other, each with its journals and receipts. Their sizes may change, and the first one may open with any opening.
///
/// Their verdicts, exactly where each one's own audit accepts it, its number is one more than that of the one before, it opens with the map that the
/// history of the one before leaves, its clocks go on from the stamp of its seal or a later one, and each one but the last has a seal. Then the histories, each
/// up to its first seal, one after the other, are one history of one map from the first opening on, and keep each caller's order: `IsChained`, by the laws
/// `chains_explain` and `chains_keep_callers` of `ep_rules`. Its `chain` is what `chains_one_machine` says the same of, for any machine.
/// Otherwise the first fault of the first one that has one.
pub fn audit_chain(alloc: Global, links: &[ChainLink]) -> Result<Vec<Verdict>, ChainVerdictFault>
    ensures ok { IfOk result (λ vs. IsChained links.now vs.items) }
    ensures refused { IfErr result (λ e. IsChainRefused links.now e) }
{
    let mut verdicts = Vec::new(alloc);
    for place in 0..links.len() {
        let verdict = next_verdict(alloc, links, &verdicts, place)?;
        verdicts.reserve(1)?;
        verdicts.push_reserved(verdict);
    }
    Ok(verdicts)
}
