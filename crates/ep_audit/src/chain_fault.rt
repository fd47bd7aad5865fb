//! What an audit of a chain finds at fault.

use crate::audit_fault::AuditFault;
use ep_base::Key;

/// The first fault of a generation in a chain.
#[derive(Debug, Drop)]
pub enum ChainFault {
    /// The first fault that its own audit finds.
    Audit(AuditFault),
    /// Its number isn't one more than that of the generation before.
    NotConsecutive,
    /// The least key that has not the same in its opening as after the history of the generation before.
    OpeningDiffers(Key),
    /// Its clocks went on from a stamp below that of the seal of the generation before.
    StampsGoBack,
    /// Its history has no seal, and another generation follows.
    NotClosed,
}
