//! How a log is started.

ghost use Rattle.std.specs.Prelude.{◌≡◌};
ghost use Rattle.ep_folder.specs.Plans.{begins};

/// How the log of a generation is started.
#[derive(Clone, Copy, Debug, PartialEq, Eq)]
pub enum LogStart {
    /// It is begun: there is none.
    New,
    /// It is gone on with, or begun where there is none.
    Either,
    /// It is gone on with.
    Existing,
}

impl LogStart {
    /// Whether it is begun, by whether there is a log.
    pub fn begins(self, has_log: bool) -> bool
        ensures { result ≡ begins self has_log }
    {
        match self {
            LogStart::New => true,
            LogStart::Either => !has_log,
            LogStart::Existing => false,
        }
    }
}
