//! What explicit prepare goes on with.

use ep_base::{Command, Decree};

/// What the leader of a recovery ballot does with the answers that it has, and with which of them
/// (EPaxos, figure 3).
#[derive(Drop)]
pub enum Choice<'a> {
    /// A replica committed this decree: commit it.
    Commit(&'a Decree),
    /// A replica accepted this decree at the greatest ballot: run the accept phase with it.
    Accept(&'a Decree),
    /// The fast path may have committed this decree: run the accept phase with it.
    AcceptFast(&'a Decree),
    /// A replica pre-accepted this command at the greatest ballot: run phase 1 with it.
    Propose(&'a Command),
    /// No replica voted at the greatest ballot: run phase 1 with a no-op.
    ProposeNoop,
}
