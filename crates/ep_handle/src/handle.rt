//! What a C program holds of a node.

ghost use Rattle.std.specs.Prelude.{◌≡◌};
ghost use Rattle.std.specs.Coded.{coded_option};
ghost use Rattle.std.specs.Option.{option_map};
ghost use Rattle.std.specs.declared.option.Option.{Option as Maybe};
ghost use Rattle.std.specs.declared.option.Option.TheVariants.{None, Some};
ghost use Rattle.ep_embedded.specs.Hosting.{hosting_code, Hosting};
ghost use Rattle.ep_handle.specs.Held.{held};

use crate::loose::Loose;
use ep_embedded::Hosted;
use std::alloc::Global;
use std::marker::{Model, Send};
use std::ptr::null_mut;

/// A node on the heap, or none, as one pointer. C begins it with a null pointer, and changes nothing in it. So each call sees whether a handle has no
/// node, was freed, or has one already, and none is undefined.
#[repr(C)]
#[derive(Drop)]
pub struct Handle {
    at: *mut u8,
    pub ghost value: { Maybe Hosting } by { coded_option hosting_code },
}

impl Model for Handle {
    ghost use Rattle.ep_handle.specs.Held.{held};
    ghost use Rattle.ep_embedded.specs.contracts.hosted.Hosted.{the_row as hosted_row};

    ghost also_owns = { λ h. held hosted_row h.at h.value };
}

impl Handle {
    /// No node.
    pub fn empty() -> Handle
        ensures { result.value ≡ None }
    {
        Handle { at: null_mut() }
    }

    /// The node, as `Loose`.
    fn of_loose(node: Loose<Hosted, Global>) -> Handle
        ensures { result.value ≡ Some node.value }
    {
        let Loose { at, alloc: _ } = node;
        Handle { at: at as *mut u8 }
    }

    /// The node as `Loose`, if there is one.
    fn into_loose(self, alloc: Global) -> Option<Loose<Hosted, Global>>
        ensures { option_map (λ l. l.value) result ≡ self.value }
    {
        let at = self.at;
        if at.is_null() {
            None
        } else {
            Some(Loose {
                at: at as *mut Hosted,
                alloc,
            })
        }
    }

    /// The node of the box.
    pub fn of(node: Box<Hosted, Global>) -> Handle
        ensures { result.value ≡ Some node.value }
    {
        Handle::of_loose(Loose::of(node))
    }

    /// The box of the node, if there is one; the handle is let go, and has none.
    pub fn into_box(self, alloc: Global) -> Option<Box<Hosted, Global>>
        ensures { option_map (λ b. b.value) result ≡ self.value }
    {
        match self.into_loose(alloc) {
            Some(loose) => Some(loose.into_box()),
            None => None,
        }
    }
}

// It may go to another thread, as its box may.
unsafe impl Send for Handle {}
