//! The first bytes that a source gives.

ghost use Rattle.std.specs.Prelude.{◌≡◌, ◌≤◌, ℕ, List, Some, length, IfOk, true};
ghost use Rattle.ep_base.specs.Devices.{FailsAsReported};
ghost use Rattle.ep_wire.specs.Front.{Gathers};

use ep_base::{ReadFailed, Source};

/// Fills the front of the buffer with the next bytes of the source, and says how many there are: fewer than the buffer is
/// long only where the input ends.
pub(crate) fn gather<S: Source>(source: &mut S, buf: &mut [u8]) -> Result<usize, ReadFailed>
    ensures bytes { (zs : List ℕ) → S.left source.old ≡ Some zs → IfOk result (λ n. Gathers n zs buf.new (S.left source.new)) }
    ensures long { length buf.new ≡ length buf.old }
    ensures within { IfOk result (λ n. n ≤ length buf.new) }
    ensures reported { FailsAsReported (λ _. true) result (S.has_failed source.old) (S.has_failed source.new) }
{
    let mut at = 0;
    while at < buf.len() {
        let count = source.pull(&mut buf[at..])?;
        if count == 0 {
            return Ok(at);
        }
        at += count;
    }
    Ok(at)
}
