//! What a host that is finished hands back.

use ep_audit::{AuditFault, Verdict};
use ep_journal::Journals;

/// What a host that is finished hands back: its replicas' journals, and what the audit says of them.
pub struct Finished {
    pub journals: Journals,
    /// The verdict, or the first fault.
    pub verdict: Result<Verdict, AuditFault>,
}

// (by hand, so that no crate above proves again how the parts are dropped)
impl Drop for Finished {
    fn drop(self) {
        let Finished { journals, verdict } = self;
        drop(journals);
        drop(verdict);
    }
}
