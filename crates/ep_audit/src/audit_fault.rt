//! What an audit finds at fault.

use ep_base::ReplicaId;
use std::error::Error;
use std::fmt;

/// The first fault of journals and receipts. A replica and an entry's number are those of the entry that handled the
/// frame; receipts are counted from 1.
#[derive(Clone, Copy, Debug, PartialEq, Eq)]
pub enum AuditFault {
    /// Nothing was sent where the handled frame says.
    UnsentFrame(ReplicaId, u32),
    /// Another frame was sent there.
    ChangedFrame(ReplicaId, u32),
    /// The frame's stamp isn't below that of the handling entry.
    StampOrder(ReplicaId, u32),
    /// Nobody proposed or executed what this receipt says.
    UnknownReceipt(usize),
    /// The proposal's stamp isn't above the one that the client had seen, by this receipt.
    CallerOrder(usize),
}

impl fmt::Display for AuditFault {
    ghost use Rattle.std.specs.Prelude.{Some};
    ghost use Rattle.ep_audit.specs.Faults.{fault_of, fault_text};

    ghost output = { λ a. Some (fault_text (fault_of a)) };

    fn fmt<W: fmt::Write>(&self, f: &mut fmt::Formatter<W>) -> fmt::Result {
        match self {
            AuditFault::UnsentFrame(replica, entry) => {
                write!(
                    f,
                    "A1 unsent frame at replica {} entry {entry}",
                    replica.index()
                )
            }
            AuditFault::ChangedFrame(replica, entry) => {
                write!(
                    f,
                    "A2 changed frame at replica {} entry {entry}",
                    replica.index()
                )
            }
            AuditFault::StampOrder(replica, entry) => {
                write!(
                    f,
                    "A3 stamp order at replica {} entry {entry}",
                    replica.index()
                )
            }
            AuditFault::UnknownReceipt(place) => write!(f, "A4 unknown receipt {place}"),
            AuditFault::CallerOrder(place) => write!(f, "A5 caller order at receipt {place}"),
        }
    }
}

impl Error for AuditFault {}
