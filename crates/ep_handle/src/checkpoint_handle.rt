//! What a C program holds of a `Checkpoint`.

ghost use Rattle.std.specs.Prelude.{◌≡◌};
ghost use Rattle.std.specs.Coded.{coded_option};
ghost use Rattle.std.specs.Option.{option_map};
ghost use Rattle.std.specs.declared.option.Option.{Option as Maybe};
ghost use Rattle.std.specs.declared.option.Option.TheVariants.{None, Some};
ghost use Rattle.ep_embedded.specs.contracts.hosted_checkpoint.HostedCheckpoint as checkpoint_facts;
ghost use Rattle.ep_embedded.specs.declared.hosted_checkpoint.HostedCheckpoint.{HostedCheckpoint as Giver};
ghost use Rattle.ep_handle.specs.Held.{held};

use crate::loose::Loose;
use ep_embedded::HostedCheckpoint;
use std::alloc::Global;
use std::marker::{Model, Send};
use std::ptr::null_mut;

/// A file that is given in pieces, on the heap, or none, as one pointer. C begins it with a null pointer, and changes nothing in it. So each call sees whether it has none,
/// was freed, or has one already, and none is undefined.
#[repr(C)]
#[derive(Drop)]
pub struct CheckpointHandle {
    at: *mut u8,
    pub ghost value: { Maybe Giver } by { coded_option checkpoint_facts.the_row.coded },
}

impl Model for CheckpointHandle {
    ghost use Rattle.ep_handle.specs.Held.{held};
    ghost use Rattle.ep_embedded.specs.contracts.hosted_checkpoint.HostedCheckpoint.{the_row as checkpoint_row};

    ghost also_owns = { λ h. held checkpoint_row h.at h.value };
}

impl CheckpointHandle {
    /// None.
    pub fn empty() -> CheckpointHandle
        ensures { result.value ≡ None }
    {
        CheckpointHandle { at: null_mut() }
    }

    /// It, as `Loose`.
    fn of_loose(node: Loose<HostedCheckpoint, Global>) -> CheckpointHandle
        ensures { result.value ≡ Some node.value }
    {
        let Loose { at, alloc: _ } = node;
        CheckpointHandle { at: at as *mut u8 }
    }

    /// It as `Loose`, if there is one.
    fn into_loose(self, alloc: Global) -> Option<Loose<HostedCheckpoint, Global>>
        ensures { option_map (λ l. l.value) result ≡ self.value }
    {
        let at = self.at;
        if at.is_null() {
            None
        } else {
            Some(Loose {
                at: at as *mut HostedCheckpoint,
                alloc,
            })
        }
    }

    /// That of the box.
    pub fn of(node: Box<HostedCheckpoint, Global>) -> CheckpointHandle
        ensures { result.value ≡ Some node.value }
    {
        CheckpointHandle::of_loose(Loose::of(node))
    }

    /// The box, if there is one; the handle is let go, and has none.
    pub fn into_box(self, alloc: Global) -> Option<Box<HostedCheckpoint, Global>>
        ensures { option_map (λ b. b.value) result ≡ self.value }
    {
        match self.into_loose(alloc) {
            Some(loose) => Some(loose.into_box()),
            None => None,
        }
    }
}

// It may go to another thread, as its box may.
unsafe impl Send for CheckpointHandle {}
