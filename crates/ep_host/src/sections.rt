//! What a section hands back.

use crate::gate_unpassed::GateUnpassed;
use crate::ring_node::RingNode;

/// What a section hands back: all nodes, in order, and whether each of them ended.
#[derive(Drop)]
pub struct Section {
    pub nodes: Vec<RingNode>,
    pub result: Result<(), GateUnpassed>,
}
