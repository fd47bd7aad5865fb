//! Numbers in bytes.

ghost use Rattle.std.specs.Prelude.{◌≡◌, ◌%◌, ◌^◌, length};
ghost use Rattle.byteorder.specs.Endian.{big_number};

/// The number that these bytes spell, the highest first.
pub(crate) fn number_of(bytes: &[u8]) -> u64
    ensures { result ≡ big_number (length bytes.now) bytes.now % 2 ^ 64 }
{
    let mut number: u64 = 0;
    for byte in bytes {
        number = number.wrapping_mul(256).wrapping_add(u64::from(*byte));
    }
    number
}
