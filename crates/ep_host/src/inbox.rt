//! The rule that an inbox keeps.

use crate::hand::Hand;
use crossbeam_queue::RuledArrayQueue;
use crossbeam_queue::protocol::{Lesson, Outcome, Protocol};

/// The rule of an inbox: what was put is what was taken, and then what it holds.
pub struct Order;

impl<T> Protocol<T, Hand<T>> for Order {
    ghost use Rattle.std.specs.Prelude.{[]};
    ghost use Rattle.ep_host.specs.Inboxes.{hand, InOrder};

    ghost holds = { InOrder };

    ghost first = { hand [] [] };
}

/// A put: the item is the last that the port has put.
pub struct Puts;

impl<T> Outcome<T, Hand<T>> for Puts {
    ghost use Rattle.std.specs.Prelude.{◌≡◌, ◌∷◌, [], ◌++◌};
    ghost use Rattle.ep_host.specs.Inboxes.{hand};

    ghost then = { λ v x w. w ≡ hand (v.put ++ x ∷ []) v.taken };
}

/// A put that is refused teaches nothing.
impl<T> Lesson<T, Hand<T>> for Puts {
    ghost use Rattle.std.specs.Prelude.{⊤};

    ghost fact = { λ v items. ⊤ };
}

/// A take: the item is the last that the port has taken.
pub struct Takes;

impl<T> Outcome<T, Hand<T>> for Takes {
    ghost use Rattle.std.specs.Prelude.{◌≡◌, ◌∷◌, [], ◌++◌};
    ghost use Rattle.ep_host.specs.Inboxes.{hand};

    ghost then = { λ v x w. w ≡ hand v.put (v.taken ++ x ∷ []) };
}

/// A take of nothing teaches nothing.
impl<T> Lesson<T, Hand<T>> for Takes {
    ghost use Rattle.std.specs.Prelude.{⊤};

    ghost fact = { λ v items. ⊤ };
}

/// A queue under this rule.
pub type Inbox<T> = RuledArrayQueue<T, Hand<T>, Order>;
