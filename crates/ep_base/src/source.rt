//! What programs read from.

ghost use Rattle.std.specs.Prelude.{◌≡◌, ℕ, ◌≤◌, Bool, List, Option, length, IfOk};
ghost use Rattle.ep_base.specs.Devices.{Pulls};

use crate::read_failed::ReadFailed;

/// Gives bytes. A fault sets `failed` for good.
pub trait Source {
    /// The bytes that are left, if they are known.
    ghost left: { Self → Option (List ℕ) };

    /// Whether a pull has failed.
    ghost has_failed: { Self → Bool };

    /// Whether a pull has failed.
    fn failed(&self) -> bool
        ensures { result ≡ has_failed self.now };

    /// Fills the front of the slice with the next bytes, and returns how many. 0 for a slice that isn't empty is the end.
    fn pull(&mut self, buf: &mut [u8]) -> Result<usize, ReadFailed>
        ensures bound { IfOk result (λ n. n ≤ length buf.new) }
        ensures bytes { Pulls (left self.old) (left self.new) (has_failed self.old) (has_failed self.new) result buf.new };
}
