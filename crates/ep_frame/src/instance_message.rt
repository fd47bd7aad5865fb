//! A message with its instance, borrowed.

use ep_base::{InstanceId, MessageView};

/// A message with its instance, borrowed.
#[derive(Clone, Copy)]
pub struct InstanceMessage<'a> {
    /// The instance.
    pub instance: InstanceId,
    /// What is said of it.
    pub said: MessageView<'a>,
}
