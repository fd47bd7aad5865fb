//! Bodies of commands over many keys.

ghost use Rattle.std.specs.Prelude.{◌≡◌, ◌∷◌, ◌≤◌, ◌<◌, ◌+◌, ◌*◌, ◌^◌, length, slice_index, true, IfNone, IfSome, [], Some, None};
ghost use Rattle.ep_base.specs.Items.{none_writes, reported_count, rise_above, item_keys};
ghost use Rattle.ep_base.specs.Interference.{has_key};
ghost use Rattle.ep_base.specs.CommandParts.{is_tx, items_in, are_items_at, is_item, item_at, guard_in, write_in, write_behind, IsItemLen, IsSaidLen, IsGuardLen, IsWriteLen, IsPutLen, are_counted};
ghost use Rattle.ep_base.specs.Views.{asked, seen};

use crate::comparison::{part_len, value_in};
use std::marker::Model;

/// How many keys a command names at most.
pub const MOST_KEYS: usize = 1_024;

/// How many keys a reply reports at most.
pub const MOST_REPORTED: usize = 16;

/// What a command over many keys says of one of them, its parts borrowed.
#[derive(Clone, Copy)]
pub struct ItemView<'a> {
    /// The key.
    pub key: &'a [u8],
    /// What the key must have, be it a value or none, if the item asks for that.
    pub guard: Option<Option<&'a [u8]>>,
    /// Whether the reply says what the key has.
    pub reported: bool,
    /// What the key is given, be it a value or none, if the item writes.
    pub write: Option<Option<&'a [u8]>>,
}

/// Items of a command over many keys, one after the other, in rising order of keys.
#[derive(Drop)]
pub struct Items<'a> {
    left: usize,
    rest: &'a [u8],
}

impl<'a> Model for Items<'a> {
    ghost use Rattle.std.specs.Prelude.{◌≡◌, List, true};
    ghost use Rattle.ep_base.specs.Items.{Item};
    ghost use Rattle.ep_base.specs.CommandParts.{items_at, are_items_at};

    ghost Value = { List Item };

    ghost view = { λ i. items_at i.left i.rest.now };

    ghost invariant = { λ i. are_items_at i.left i.rest.now ≡ true };
}

impl<'a> Items<'a> {
    /// No items.
    pub(crate) fn none() -> Items<'a>
        ensures { result ≡ [] }
    {
        Items {
            left: 0,
            rest: [].as_slice(),
        }
    }

    /// The items of this body.
    pub(crate) fn of(body: &'a [u8]) -> Items<'a>
        requires { is_tx body.now ≡ true }
        ensures { result ≡ items_in body.now }
    {
        Items {
            left: count_in(body),
            rest: &body[2..],
        }
    }

    /// The next item, if there is one.
    pub fn next(&mut self) -> Option<ItemView<'a>>
        ensures end { IfNone result ((self.old ≡ []) × (self.new ≡ [])) }
        ensures item { IfSome result (λ i. self.old ≡ seen i ∷ self.new) }
        ensures in_range { IfSome result (λ i. is_item (seen i) ≡ true) }
    {
        if self.left == 0 {
            return None;
        }
        let found = item_of(self.rest)?;
        self.left -= 1;
        self.rest = &self.rest[found.1..];
        Some(found.0)
    }
}

/// Whether the bytes are the body of a command over many keys: 1 to 1,024 items in rising order of keys, of which at most
/// 16 are reported, with nothing left over.
#[tactic(auto, using(crate::proofs::Many::tx_counted, crate::proofs::Many::tx_short, crate::proofs::Many::tx_long))]
pub fn is_tx(body: &[u8]) -> bool
    ensures { result ≡ is_tx body.now }
{
    if body.len() < 5 {
        return false;
    }
    if 131080 < body.len() {
        return false;
    }
    are_counted(count_in(body), &body[2..])
}

// Whether the bytes are so many items, as many as a command may have, in order, and few enough are reported.
fn are_counted(left: usize, rest: &[u8]) -> bool
    requires { left < 2 ^ 16 }
    ensures { result ≡ are_counted left rest.now }
{
    if left < 1 || MOST_KEYS < left || !are_items_at(left, rest) {
        return false;
    }
    do_rise(Items { left, rest }) && reported_count(Items { left, rest }) <= MOST_REPORTED
}

// How many items the body says that it has.
fn count_in(body: &[u8]) -> usize
    requires { 2 ≤ length body.now }
    ensures value { result ≡ slice_index body.now 0 * 256 + slice_index body.now 1 }
    ensures second { slice_index body.now 1 < 256 }
    ensures small { result < 2 ^ 16 }
{
    body[0] as usize * 256 + body[1] as usize
}

// Whether the bytes are so many items, with nothing left over.
#[tactic(auto, using(crate::proofs::Saying::counted_none))]
fn are_items_at(count: usize, bytes: &[u8]) -> bool
    ensures { result ≡ are_items_at count bytes.now }
{
    let mut left = count;
    let mut rest = bytes;
    while left > 0 {
        let Some(found) = item_of(rest) else {
            return false;
        };
        rest = &rest[found.1..];
        left -= 1;
    }
    rest.is_empty()
}

fn do_rise(items: Items<'_>) -> bool
    ensures { result ≡ rise_above [] items.entry }
{
    let mut items = items;
    let mut above = [].as_slice();
    while let Some(item) = items.next() {
        if !above.cmp(item.key).is_lt() {
            return false;
        }
        above = item.key;
    }
    true
}

fn reported_count(items: Items<'_>) -> usize
    requires { length items ≤ 65535 }
    ensures { result ≡ reported_count items.entry }
{
    let mut items = items;
    let mut count = 0;
    while let Some(item) = items.next() {
        if item.reported {
            count += 1;
        }
    }
    count
}

/// Whether no item writes.
pub(crate) fn none_writes(items: Items<'_>) -> bool
    ensures { result ≡ none_writes items.entry }
{
    let mut items = items;
    while let Some(item) = items.next() {
        if item.write.is_some() {
            return false;
        }
    }
    true
}

/// Whether one of the items is of the key.
pub(crate) fn has_item(items: Items<'_>, key: &[u8]) -> bool
    ensures { result ≡ has_key key.now (item_keys items.entry) }
{
    let mut items = items;
    while let Some(item) = items.next() {
        if key == item.key {
            return true;
        }
    }
    false
}

// The item that the bytes begin with, if they do, and how many of them it takes.
fn item_of(bytes: &[u8]) -> Option<(ItemView<'_>, usize)>
    ensures none { IfNone result (IsItemLen bytes.now None) }
    ensures len { IfSome result (λ r. IsItemLen bytes.now (Some r.1)) }
    ensures item { IfSome result (λ r. seen r.0 ≡ item_at bytes.now) }
{
    if bytes.len() < 2 {
        return None;
    }
    let len = bytes[0] as usize;
    let flags = bytes[1];
    if len == 0 || flags == 0 || flags > 11 || bytes.len() - 2 < len {
        return None;
    }
    let behind = 2 + len;
    let said = said_of(flags, &bytes[behind..])?;
    let item = ItemView {
        key: &bytes[2..behind],
        guard: said.0,
        reported: flags % 2 == 1,
        write: said.1,
    };
    Some((item, behind + said.2))
}

type Asked<'a> = Option<Option<&'a [u8]>>;

// The guard and what is written, as these flags say, which the bytes begin with, if they do, and how many of them they take.
fn said_of(flags: u8, bytes: &[u8]) -> Option<(Asked<'_>, Asked<'_>, usize)>
    ensures none { IfNone result (IsSaidLen flags bytes.now None) }
    ensures len { IfSome result (λ r. IsSaidLen flags bytes.now (Some r.2)) }
    ensures guard { IfSome result (λ r. asked r.0 ≡ guard_in flags bytes.now) }
    ensures write { IfSome result (λ r. asked r.1 ≡ write_behind flags bytes.now) }
{
    let guard = guard_of(flags, bytes)?;
    let write = write_of(flags, &bytes[guard.1..])?;
    Some((guard.0, write.0, guard.1 + write.1))
}

// The guard that the bytes begin with, if they do, and how many of them it takes: none where the flags have none.
#[tactic(auto, using(crate::proofs::Many::guard_none))]
fn guard_of(flags: u8, bytes: &[u8]) -> Option<(Asked<'_>, usize)>
    ensures none { IfNone result (IsGuardLen flags bytes.now None) }
    ensures len { IfSome result (λ r. IsGuardLen flags bytes.now (Some r.1)) }
    ensures guard { IfSome result (λ r. asked r.0 ≡ guard_in flags bytes.now) }
{
    if flags / 2 % 2 != 1 {
        return Some((None, 0));
    }
    match part_len(bytes) {
        None => None,
        Some(len) => Some((Some(value_in(bytes, len)), len)),
    }
}

// What is written, and how many bytes it takes: none where the flags have no put.
fn write_of(flags: u8, bytes: &[u8]) -> Option<(Asked<'_>, usize)>
    ensures none { IfNone result (IsWriteLen flags bytes.now None) }
    ensures len { IfSome result (λ r. IsWriteLen flags bytes.now (Some r.1)) }
    ensures write { IfSome result (λ r. asked r.0 ≡ write_in flags bytes.now) }
{
    if flags / 4 == 2 {
        return Some((Some(None), 0));
    }
    if flags / 4 != 1 {
        return Some((None, 0));
    }
    let len = put_len(bytes)?;
    Some((Some(Some(&bytes[4..len])), len))
}

// How many bytes the value takes that is put and that the bytes begin with, if they do.
fn put_len(bytes: &[u8]) -> Option<usize>
    ensures len { IsPutLen bytes.now result }
    ensures long { IfSome result (λ n. 4 ≤ n) }
{
    if bytes.len() < 4 || bytes[0] != 0 || bytes[1] != 0 {
        return None;
    }
    let len = bytes[2] as usize * 256 + bytes[3] as usize;
    if bytes.len() - 4 < len {
        return None;
    }
    Some(4 + len)
}
