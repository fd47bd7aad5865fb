//! What a node is asked to be.

use ep_base::{ReplicaId, Size};
use ep_node::Begin;
use ep_serve::Mode;

/// What a node is asked to be.
#[derive(Drop)]
pub struct Options<'a> {
    /// The cluster's size.
    pub size: Size,
    /// The replica's number.
    pub me: ReplicaId,
    /// The path of its log.
    pub log: &'a str,
    /// Whether it is to be begun.
    pub begin: Begin,
    /// When answers are written.
    pub mode: Mode,
}
