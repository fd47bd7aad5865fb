//! What a run leaves.

use ep_host::Finished;
use ep_journal::Refusal;
use ep_rules::Receipt;

/// What a run leaves.
#[derive(Drop)]
pub struct Ran {
    /// The journals, and what the audit says of them with the receipts.
    pub finished: Finished,
    /// The receipts, by section, in each by replica, and then in the order of execution.
    pub receipts: Vec<Receipt>,
    /// The lines that their replicas refused, in rising order, each with the cause.
    pub refused: Vec<(u32, Refusal)>,
    /// How many frames were lost: when out of memory, and where an inbox was full.
    pub lost: u64,
}
