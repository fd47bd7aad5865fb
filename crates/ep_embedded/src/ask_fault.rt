//! Why a request was not done.

ghost use Rattle.std.specs.Prelude.{◌≡◌};
ghost use Rattle.ep_embedded.specs.Faults.{of_request};

use ep_wire::RequestFault;
use thiserror::Error;

/// Why a request was not done.
#[derive(Clone, Copy, Debug, PartialEq, Eq, Error)]
pub enum AskFault {
    /// The whole log is lent anew, and isn't on the disk yet: nothing is done before `synced` says that it is.
    #[error("the log that is lent isn't on the disk")]
    Lent,
    /// Memory was refused. Nothing was done, but of a request of kind 12, which executes all that is ready: some of that may have been executed.
    #[error("E1 memory")]
    Memory,
    /// The bytes aren't just one request: its length is out of range, or isn't that of the bytes.
    #[error("the bytes aren't one request")]
    NotOne,
}

impl From<RequestFault> for AskFault {
    ghost from_gives = { λ fault e. e ≡ of_request fault };

    fn from(fault: RequestFault) -> AskFault {
        match fault {
            // Bytes in memory are read without fail.
            RequestFault::Memory | RequestFault::ReadFailed => AskFault::Memory,
            RequestFault::BadRequest(_) => AskFault::NotOne,
        }
    }
}
