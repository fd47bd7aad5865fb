//! Why a section ended early.

use thiserror::Error;

/// The turns were used up before all nodes had ended.
#[derive(Clone, Copy, Debug, PartialEq, Eq, Error)]
#[error("E17 node {node} did not end in {turns} turns")]
pub struct GateUnpassed {
    /// The least node that had not ended.
    pub node: usize,
    /// How many turns each node had.
    pub turns: u32,
}
