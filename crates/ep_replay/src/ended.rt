//! Where a script's lines lead.

use crate::tried::Tried;
use ep_rules::Receipt;
use ep_world::World;

/// Where a script's lines have led.
#[derive(Drop)]
pub struct Ended {
    /// The world after the last line.
    pub world: World,
    /// A receipt for each execution of a command by the replica that proposed it, in order of execution.
    pub receipts: Vec<Receipt>,
    /// Each event that was tried, in order.
    pub tried: Vec<Tried>,
    /// The numbers of the messages that were sent and never given, rising.
    pub ungiven: Vec<u64>,
}
