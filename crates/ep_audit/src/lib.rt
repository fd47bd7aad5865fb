//! The audit of a cluster's journals, with receipts: whether they fit together, and the one history that they then make.
//!
//! `ep_main` audits replays and bundles by it, and so may any program that holds `Journals`. `audit` carries the headline in
//! its contract, for any journals and receipts handed in: where it answers a verdict, they merge into one run with one
//! history; otherwise it reports the first fault. `audit_chain` audits generations, one after the other: where it answers their verdicts, their
//! histories are one.
//!
//! Start with `auditing.rt` and specs/Audited.antt: `IsAudited`, `IsOneHistory`, `IsOneClosing`, `IsRefused`; then `chain.rt` and specs/Chained.antt.
//!
//! The work is in two halves. `matching.rt` finds the first fault (`listing.rt` all of them): it goes through the handled frames by replica and entry, and then through the
//! receipts, and answers the first one that isn't as `IsAccepted` of `ep_rules`, specs/Audits.antt, asks. Frames and proposals are found by
//! their places, so that an audit is one pass. `summary.rt` says what the journals say (specs/Verdicts.antt): it
//! collects what is committed, merges the entries that execute something by stamp and replica, and takes each command at its first execution. `verdict.rt` adds the
//! schedule: all entries, merged. That the replies are one map's is a law of `ep_rules` on journals
//! that match, and not work done here.
//!
//! The order of the checks is part of the contract: which fault is reported first. How things are found, merged and looked up isn't.
//!
//! It knows nothing of scripts and reports: `ep_report` prints verdicts and faults. For who audits bundles it hands on
//! `read_bundle` and `write_bundle` of `ep_bundle`.
#![tactic(auto)]

mod audit_fault;
mod auditing;
mod chain;
mod chain_fault;
mod chain_link;
mod chain_verdict_fault;
mod claims;
mod closing;
mod contents;
mod difference;
mod entry_place;
mod handlings;
mod happening;
mod history;
mod in_order;
mod listing;
mod lookups;
mod matching;
mod proposals;
mod seals;
mod summarizing;
mod summary;
mod table;
mod upgrade_law;
mod verdict;
mod verdict_fault;

pub use audit_fault::AuditFault;
pub use auditing::audit;
pub use chain::audit_chain;
pub use chain_fault::ChainFault;
pub use chain_link::ChainLink;
pub use chain_verdict_fault::ChainVerdictFault;
pub use closing::Closing;
pub use contents::contents_of;
pub use ep_bundle::{read_bundle, write_bundle};
pub use happening::Happening;
pub use listing::faults;
pub use lookups::{entries_of, entry_at, is_request, proposed, sent_there};
pub use matching::first_fault;
pub use summarizing::audit_summary;
pub use summary::Summary;
pub use upgrade_law::upgraded_says_the_same;
pub use verdict::Verdict;
pub use verdict_fault::VerdictFault;
