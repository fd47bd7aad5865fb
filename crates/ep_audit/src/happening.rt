//! What happened, in order.

use ep_base::{Command, InstanceId, Reply};

/// A command of the history, and the reply to it.
#[derive(Drop)]
pub struct Happening {
    /// The instance as which the command was committed.
    pub instance: InstanceId,
    /// The command, which is no no-op in a history.
    pub command: Command,
    /// The value that the command's key, of a swap the first one, had just before it.
    pub reply: Reply,
}
