//! What a replay leaves.

use ep_journal::{Journals, Refusal};
use ep_rules::Receipt;

/// What a replay leaves: the replicas' journals, the receipts in the order given, and the refused events.
#[derive(Drop)]
pub struct Replayed {
    /// The journal of each replica, in replica order.
    pub journals: Journals,
    /// A receipt for each execution of a command by the replica that proposed it, in order of execution.
    pub receipts: Vec<Receipt>,
    /// The events that were refused, in order, each with the number of its line, from 1, and its cause.
    pub refused: Vec<(u32, Refusal)>,
}
