//! Generations of a chain.

use ep_journal::Journals;
use ep_rules::Receipt;

/// A generation in a chain: its journals, with receipts.
#[derive(Drop)]
pub struct ChainLink {
    pub journals: Journals,
    pub receipts: Vec<Receipt>,
}
