//! Ports to an inbox.

ghost use Rattle.std.specs.Arc.{arc_value};
ghost use Rattle.crossbeam_queue.specs.Passes.{IsPassOf};

use crate::hand::Hand;
use crate::inbox::{Inbox, Puts, Takes};
use crossbeam_queue::Pass;
use std::alloc::{AllocError, Global};
use std::sync::{Arc, Wait};

/// A port to an inbox: it puts items in at the back and takes them out at the front. One thread at a time has it; others have others to the same
/// inbox.
pub struct Port<T: Drop> {
    queue: Arc<Inbox<T>, Global>,
    pass: Pass<T, Hand<T>>,
    ghost tied: { IsPassOf (arc_value queue) pass },
}

// (by hand, so that nothing above proves again how the parts are dropped)
impl<T: Drop> Drop for Port<T> {
    fn drop(self) {
        let Port { queue, pass } = self;
        drop(queue);
        drop(pass);
    }
}

impl<T: Drop> Port<T> {
    ghost use Rattle.std.specs.Prelude.{◌≡◌, ◌<◌, ◌∷◌, ◌++◌, [], IfOk, OnOk, IfErr, option_to_list};
    ghost use Rattle.ep_host.specs.Ports.{put_by, taken_by, inbox_capacity, LeadTogether};

    /// A port to a new inbox, for so many items.
    pub fn open(alloc: Global, capacity: usize) -> Result<Port<T>, AllocError>
        requires { 0 < capacity }
        ensures { IfOk result (λ p. (inbox_capacity p ≡ capacity) × (put_by p ≡ []) × (taken_by p ≡ [])) }
    {
        let (queue, pass) = Inbox::ruled(alloc, capacity)?;
        let queue = Arc::new(alloc, queue)?;
        Ok(Port { queue, pass })
    }

    /// One more port to the same inbox.
    pub fn another(&self) -> Result<Port<T>, AllocError>
        ensures { IfOk result (λ p. LeadTogether self.now p × (put_by p ≡ []) × (taken_by p ≡ [])) }
    {
        let queue = Arc::try_clone(&self.queue)?;
        let pass = queue.pass();
        Ok(Port { queue, pass })
    }

    /// For how many items the inbox has room.
    pub fn capacity(&self) -> usize
        ensures { result ≡ inbox_capacity self.now }
    {
        self.queue.capacity()
    }

    /// Puts the item in at the back, in one step; or hands it back, where the inbox is full. That it is full then isn't said: no clause sees what
    /// other threads put and take.
    pub fn put<R: Wait>(&mut self, rt: &R, item: T) -> Result<(), T>
        ensures inbox { LeadTogether self.old self.new }
        ensures taken { taken_by self.new ≡ taken_by self.old }
        ensures ok { OnOk result (put_by self.new ≡ put_by self.old ++ item ∷ []) }
        ensures err { IfErr result (λ back. (back ≡ item) × (put_by self.new ≡ put_by self.old)) }
    {
        self.queue.push_as::<Puts, R>(rt, &mut self.pass, item)
    }

    /// Takes the item at the front, in one step; none where the inbox is empty, which isn't said either.
    pub fn take<R: Wait>(&mut self, rt: &R) -> Option<T>
        ensures inbox { LeadTogether self.old self.new }
        ensures put { put_by self.new ≡ put_by self.old }
        ensures taken { taken_by self.new ≡ taken_by self.old ++ option_to_list result }
    {
        self.queue.pop_as::<Takes, R>(rt, &mut self.pass)
    }
}
