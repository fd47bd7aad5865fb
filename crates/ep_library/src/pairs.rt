//! The keys of maps in bytes.

ghost use Rattle.std.specs.Prelude.{◌≡◌, ◌≤◌, length};
ghost use Rattle.ep_frame.specs.Fields.{number_at};
ghost use Rattle.ep_library.specs.Pairs.{has_pair, pair_at, pair_len, ReportsPair};

use crate::pair::Pair;
use crate::status::{DONE, NONE};
use ep_frame::{u8_at, u32_at};

/// How many bytes the lengths have that stand before a key.
const LENGTHS: usize = 5;

/// How many bytes a key and its value take, with their lengths.
fn pair_len(bytes: &[u8]) -> u64
    requires { 5 ≤ length bytes.now }
    ensures { result ≡ pair_len bytes.now }
{
    let key = u64::from(u8_at(bytes, 0));
    let value = u64::from(u32_at(bytes, 1));
    5 + key + value
}

/// Whether a key stands in front, with its value.
fn has_pair(bytes: &[u8]) -> bool
    requires { 5 ≤ length bytes.now }
    ensures { result ≡ has_pair bytes.now }
{
    pair_len(bytes) <= bytes.len() as u64
}

/// Where they stand.
fn pair_at(bytes: &[u8]) -> Pair
    requires { 5 ≤ length bytes.now }
    ensures { result ≡ pair_at bytes.now }
{
    let key_len = u32::from(u8_at(bytes, 0));
    Pair {
        len: pair_len(bytes),
        key_at: 5,
        key_len,
        value_at: 5 + key_len,
        value_len: u32_at(bytes, 1),
    }
}

/// Says where the first key and its value stand of the bytes of a map, as ep_contents lends them and opening files
/// have them, from behind the 4 bytes on that say how many keys it has; with the bytes behind these, the next one; and
/// so on. EP_NONE: there isn't a whole one.
#[unsafe(no_mangle)]
pub extern "C" fn ep_pair(pairs: &[u8], pair: &mut Pair) -> u8
    ensures { ReportsPair result pairs.now pair.old pair.new }
{
    if pairs.len() < LENGTHS {
        return NONE;
    }
    if !has_pair(pairs) {
        return NONE;
    }
    *pair = pair_at(pairs);
    DONE
}
