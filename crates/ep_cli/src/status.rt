//! How the program ends.

ghost use Rattle.std.specs.Prelude.{◌≡◌};
ghost use Rattle.ep_cli.specs.Codes.{code_of};

/// How the program ends.
#[derive(Clone, Copy, Debug, PartialEq, Eq)]
pub enum Status {
    /// What was asked for is printed; of an audit, that it accepts.
    Done,
    /// The audit refuses.
    AuditRefused,
    /// The command line, the script or the bundle is refused.
    Refused,
    /// Memory was refused.
    OutOfMemory,
    /// Reading or writing failed.
    Failed,
}

impl Status {
    /// The exit status.
    pub fn code(self) -> u8
        ensures { result ≡ code_of self }
    {
        match self {
            Status::Done => 0,
            Status::AuditRefused => 1,
            Status::Refused => 2,
            Status::OutOfMemory => 3,
            Status::Failed => 4,
        }
    }
}
