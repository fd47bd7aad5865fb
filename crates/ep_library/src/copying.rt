//! Copies into buffers of C.

ghost use Rattle.std.specs.Prelude.{◌≡◌, ◌<◌, true, false, length};
ghost use Rattle.ep_library.specs.Alone.{IsCopied};

/// Copies the bytes to the front of the buffer, if there is room; what stands behind them stays as it was. How many
/// they are is reported in any case.
pub(crate) fn copy_out(bytes: &[u8], out: &mut [u8], len: &mut usize) -> bool
    ensures reported { len.new ≡ length bytes.now }
    ensures copied { result ≡ true → IsCopied bytes.now out.old out.new }
    ensures short { result ≡ false → (length out.old < length bytes.now) × (out.new ≡ out.old) }
{
    *len = bytes.len();
    if out.len() < bytes.len() {
        return false;
    }
    out[..bytes.len()].copy_from_slice(bytes);
    true
}
