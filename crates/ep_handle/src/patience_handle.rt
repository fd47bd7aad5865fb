//! What a C program holds of a `Patience`.

ghost use Rattle.std.specs.Prelude.{◌≡◌};
ghost use Rattle.std.specs.Coded.{coded_option};
ghost use Rattle.std.specs.Option.{option_map};
ghost use Rattle.std.specs.declared.option.Option.{Option as Maybe};
ghost use Rattle.std.specs.declared.option.Option.TheVariants.{None, Some};
ghost use Rattle.ep_patience.specs.contracts.hosted_patience.HostedPatience as patience_facts;
ghost use Rattle.ep_patience.specs.declared.hosted_patience.HostedPatience.{HostedPatience as Waiter};
ghost use Rattle.ep_handle.specs.Held.{held};

use crate::loose::Loose;
use ep_patience::HostedPatience;
use std::alloc::Global;
use std::marker::{Model, Send};
use std::ptr::null_mut;

/// When to give up and when to recover, on the heap, or none, as one pointer. C begins it with a null pointer, and changes nothing in it. So each call sees whether it has none,
/// was freed, or has one already, and none is undefined.
#[repr(C)]
#[derive(Drop)]
pub struct PatienceHandle {
    at: *mut u8,
    pub ghost value: { Maybe Waiter } by { coded_option patience_facts.the_row.coded },
}

impl Model for PatienceHandle {
    ghost use Rattle.ep_handle.specs.Held.{held};
    ghost use Rattle.ep_patience.specs.contracts.hosted_patience.HostedPatience.{the_row as patience_row};

    ghost also_owns = { λ h. held patience_row h.at h.value };
}

impl PatienceHandle {
    /// None.
    pub fn empty() -> PatienceHandle
        ensures { result.value ≡ None }
    {
        PatienceHandle { at: null_mut() }
    }

    /// It, as `Loose`.
    fn of_loose(node: Loose<HostedPatience, Global>) -> PatienceHandle
        ensures { result.value ≡ Some node.value }
    {
        let Loose { at, alloc: _ } = node;
        PatienceHandle { at: at as *mut u8 }
    }

    /// It as `Loose`, if there is one.
    fn into_loose(self, alloc: Global) -> Option<Loose<HostedPatience, Global>>
        ensures { option_map (λ l. l.value) result ≡ self.value }
    {
        let at = self.at;
        if at.is_null() {
            None
        } else {
            Some(Loose {
                at: at as *mut HostedPatience,
                alloc,
            })
        }
    }

    /// That of the box.
    pub fn of(node: Box<HostedPatience, Global>) -> PatienceHandle
        ensures { result.value ≡ Some node.value }
    {
        PatienceHandle::of_loose(Loose::of(node))
    }

    /// The box, if there is one; the handle is let go, and has none.
    pub fn into_box(self, alloc: Global) -> Option<Box<HostedPatience, Global>>
        ensures { option_map (λ b. b.value) result ≡ self.value }
    {
        match self.into_loose(alloc) {
            Some(loose) => Some(loose.into_box()),
            None => None,
        }
    }
}

// It may go to another thread, as its box may.
unsafe impl Send for PatienceHandle {}
