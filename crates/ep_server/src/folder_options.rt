//! What a node that lives through generations is asked to be.

use crate::asks::Asks;
use ep_base::{ReplicaId, Size};
use ep_serve::Mode;

/// What a node that lives through generations is asked to be.
#[derive(Drop)]
pub struct FolderOptions<'a> {
    /// The cluster's size, in the generation that is served.
    pub size: Size,
    /// The replica's number.
    pub me: ReplicaId,
    /// The path of its folder.
    pub folder: &'a str,
    pub asks: Asks<'a>,
    /// When answers are written.
    pub mode: Mode,
}
