//! What programs write to.

ghost use Rattle.std.specs.Prelude.{◌≡◌, ℕ, Bool, List, Option};
ghost use Rattle.ep_base.specs.Devices.{Puts};

use crate::write_failed::WriteFailed;

/// Takes bytes. A fault sets `failed` for good.
pub trait Sink {
    /// The bytes that it holds, if they are known.
    ghost held: { Self → Option (List ℕ) };

    /// Whether a put has failed.
    ghost has_failed: { Self → Bool };

    /// Whether a put has failed.
    fn failed(&self) -> bool
        ensures { result ≡ has_failed self.now };

    /// Writes all of the bytes. At an `Err` some of them may have been written.
    fn put(&mut self, bytes: &[u8]) -> Result<(), WriteFailed>
        ensures { Puts (held self.old) (held self.new) (has_failed self.old) (has_failed self.new) result bytes.now };
}
