//! What scripts are for.

/// The subcommand that a script is for.
#[derive(Clone, Copy, Debug, PartialEq, Eq)]
pub enum Subcommand {
    /// `epaxos replay`.
    Replay,
    /// `epaxos run`.
    Run,
}
