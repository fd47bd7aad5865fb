//! What a node has to report.

use crate::open_instance::OpenInstance;
use ep_base::InstanceId;
use ep_frame::Frame;
use ep_rules::Receipt;

/// What a node has to report of its entries from one on, all of which are on the disk.
#[derive(Drop)]
pub struct Ready {
    /// How many entries there are, all of which were reported with this: what to hand in with the next call.
    pub entries: u32,
    /// The frames that the entries send, in their order; each names its receiver. They share the entries' bytes.
    pub frames: Vec<Frame>,
    /// The receipts of the commands that were proposed here and that the entries executed, in order of execution.
    pub receipts: Vec<Receipt>,
    /// The instances, own and others', that the entries commit: each by the first entry of all that says so.
    pub committed: Vec<InstanceId>,
    /// The instances, own and others', that the entries executed, in order.
    pub executed: Vec<InstanceId>,
    /// The least instances that are open, in rising order, as many as were asked for.
    pub still_open: Vec<OpenInstance>,
    /// Whether a seal was executed.
    pub is_sealed: bool,
}
