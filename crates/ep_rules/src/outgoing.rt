//! What a step sends.

ghost use Rattle.std.specs.Prelude.{◌≡◌, [], ◌∷◌, ◌++◌, IfOk, ℕ};

use ep_base::{Message, ReplicaId};
use std::alloc::{AllocError, Global};
use std::marker::Model;

/// The messages that a step sends, each with its receiver, by rising receiver.
#[derive(Drop)]
pub struct Outgoing {
    items: Vec<(ReplicaId, Message)>,
}

impl Model for Outgoing {
    ghost use Rattle.std.specs.Prelude.{List, ℕ};
    ghost use Rattle.ep_base.specs.declared.message.Message.{Message};

    ghost Value = { List (ℕ × Message) };

    ghost view = { λ o. o.items.items };
}

impl Outgoing {
    /// No messages.
    pub fn new(alloc: Global) -> Outgoing
        ensures { result ≡ [] }
    {
        Outgoing {
            items: Vec::new(alloc),
        }
    }

    /// One message.
    pub fn one(alloc: Global, to: ReplicaId, message: Message) -> Result<Outgoing, AllocError>
        ensures { IfOk result (λ o. o ≡ (to, message) ∷ []) }
    {
        let mut out = Outgoing::new(alloc);
        out.items.push((to, message))?;
        Ok(out)
    }

    /// These messages, and this one after them.
    pub fn add(self, to: ReplicaId, message: Message) -> Result<Outgoing, AllocError>
        ensures { IfOk result (λ o. o ≡ self ++ (to, message) ∷ []) }
    {
        let mut out = self;
        out.items.push((to, message))?;
        Ok(out)
    }

    /// The messages with their receivers, in order.
    pub fn as_slice(&self) -> &[(ReplicaId, Message)]
        ensures { result.now ≡ self.now }
    {
        self.items.as_slice()
    }
}
