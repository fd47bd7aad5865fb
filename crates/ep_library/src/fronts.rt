//! What opening files say before their maps.

ghost use Rattle.std.specs.Prelude.{◌≡◌, ◌≤◌, ◌<◌, ◌+◌, ◌^◌, length};
ghost use Rattle.ep_frame.specs.Fields.{number_at};
ghost use Rattle.ep_opening.specs.Reading.{mark_of};
ghost use Rattle.ep_library.specs.Fronts.{has_front, head_at, is_front, is_known_size, is_lead, map_place, ReportsFront};
ghost use Rattle.ep_library.specs.Fronts.{has_seal_at, is_dated, is_marked, seal_len_at};

use crate::opening_head::OpeningHead;
use crate::status::{DONE, OPENING_SHORT, OPENING_WRONG};
use crate::syncing::flag;
use ep_frame::{u8_at, u32_at, u64_at};

/// How many bytes stand before a map at the least, with those that say how many keys it has.
const LEAST_LEN: usize = 23;

/// Whether a cluster has so many replicas.
pub(crate) fn is_known_size(count: u8) -> bool
    ensures { result ≡ is_known_size count }
{
    count == 3 || count == 5 || count == 7
}

/// Whether the bytes begin as an opening file does.
fn is_lead(bytes: &[u8]) -> bool
    requires { 23 ≤ length bytes.now }
    ensures { result ≡ is_lead bytes.now }
{
    u32_at(bytes, 0) == 0x4550_4f50 && u8_at(bytes, 4) == 3 && is_known_size(u8_at(bytes, 5))
}

/// Whether a seal began the generation.
fn has_seal_at(bytes: &[u8]) -> bool
    requires { 23 ≤ length bytes.now }
    ensures { result ≡ has_seal_at bytes.now }
{
    u8_at(bytes, 18) == 1
}

/// How many bytes the seal's value has.
fn seal_len_at(bytes: &[u8]) -> u32
    requires { 23 ≤ length bytes.now }
    ensures { result ≡ seal_len_at bytes.now }
{
    if has_seal_at(bytes) {
        u32_at(bytes, 19)
    } else {
        0
    }
}

/// What says whether a seal began the generation.
fn mark_of(generation: u32) -> u8
    ensures { result ≡ mark_of generation }
{
    if generation == 1 { 0 } else { 1 }
}

/// Whether the generation and the stamp are in range.
fn is_dated(bytes: &[u8]) -> bool
    requires { 23 ≤ length bytes.now }
    ensures { result ≡ is_dated bytes.now }
{
    u32_at(bytes, 6) >= 1 && u64_at(bytes, 10) <= 281_474_976_710_655
}

/// Whether there is a seal where there has to be one.
fn is_marked(bytes: &[u8]) -> bool
    requires { 23 ≤ length bytes.now }
    ensures { result ≡ is_marked bytes.now }
{
    u8_at(bytes, 18) == mark_of(u32_at(bytes, 6))
}

/// Whether the bytes stand before an opening's map.
fn is_front(bytes: &[u8]) -> bool
    requires { 23 ≤ length bytes.now }
    ensures { result ≡ is_front bytes.now }
{
    if !is_lead(bytes) {
        return false;
    }
    if !is_dated(bytes) {
        return false;
    }
    if !is_marked(bytes) {
        return false;
    }
    seal_len_at(bytes) <= 65_535
}

/// Where the map begins.
fn map_place(bytes: &[u8]) -> usize
    requires { 23 ≤ length bytes.now }
    ensures value { result ≡ map_place bytes.now }
    ensures small { result < 2 ^ 33 }
{
    if has_seal_at(bytes) {
        23 + seal_len_at(bytes) as usize
    } else {
        19
    }
}

/// What the fields say.
fn head_at(bytes: &[u8]) -> OpeningHead
    requires long { 23 ≤ length bytes.now }
    requires whole { map_place bytes.now + 4 ≤ length bytes.now }
    ensures { result ≡ head_at bytes.now }
{
    let map_at = map_place(bytes);
    OpeningHead {
        base_stamp: u64_at(bytes, 10),
        map_at: map_at as u64,
        generation: u32_at(bytes, 6),
        seal_len: seal_len_at(bytes),
        keys: u32_at(bytes, map_at),
        replicas: u8_at(bytes, 5),
        has_seal: flag(has_seal_at(bytes)),
    }
}

/// Whether all that stands before the map is there.
fn has_front(bytes: &[u8]) -> bool
    requires { 23 ≤ length bytes.now }
    ensures { result ≡ has_front bytes.now }
{
    map_place(bytes) + 4 <= bytes.len()
}

/// Reports what an opening file says before its map, by its first bytes: 65,562 are always enough. It doesn't look at
/// the digest, as ep_open does. So a host knows of which generation a file is that it is sent, and whom its seal
/// names, before it has all of it; and what the first pieces of a checkpoint say. EP_OPENING_SHORT: more bytes are
/// needed; EP_OPENING_WRONG: no opening begins so.
#[unsafe(no_mangle)]
pub extern "C" fn ep_opening_head(opening: &[u8], head: &mut OpeningHead) -> u8
    ensures { ReportsFront result opening.now head.old head.new }
{
    if opening.len() < LEAST_LEN {
        return OPENING_SHORT;
    }
    if !is_front(opening) {
        return OPENING_WRONG;
    }
    if !has_front(opening) {
        return OPENING_SHORT;
    }
    *head = head_at(opening);
    DONE
}
