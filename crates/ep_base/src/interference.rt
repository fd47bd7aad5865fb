//! Which commands interfere.

ghost use Rattle.std.specs.Prelude.{◌≡◌, ◌↔◌, IsTrue};
ghost use Rattle.ep_base.specs.Interference.{interfere, Interferes, InterferenceLaw, FootprintLaw, keys_of, listed, share_key, meet, meet_seal};
ghost use Rattle.ep_base.specs.Items.{item_keys};
ghost use Rattle.ep_base.specs.CommandParts.{key_if_any};

use crate::command::Command;
use crate::items::Items;

/// Whether the order of the two matters: they name a key in common and do not both only read (EPaxos, section 4.1), or one of them is a seal and neither a no-op.
#[inline(always)]
pub fn interferes(a: &Command, b: &Command) -> bool
    ensures test { result ≡ interfere a.now b.now }
    ensures relation { IsTrue result ↔ Interferes a.now b.now }
{
    touch(a, b)
}

#[inline(always)]
fn touch(a: &Command, b: &Command) -> bool
    ensures { result ≡ interfere a.now b.now }
{
    meet(a, b) || meet_seal(a, b)
}

#[inline(always)]
fn meet(a: &Command, b: &Command) -> bool
    ensures { result ≡ meet a.now b.now }
{
    share_key(a, b) && !(a.only_reads() && b.only_reads())
}

// Whether one of them is a seal, and neither a no-op.
#[inline(always)]
fn meet_seal(a: &Command, b: &Command) -> bool
    ensures { result ≡ meet_seal a.now b.now }
{
    (a.is_seal() || b.is_seal()) && !(a.is_noop() || b.is_noop())
}

// Whether both name some key.
#[inline(always)]
fn share_key(a: &Command, b: &Command) -> bool
    ensures { result ≡ share_key (keys_of a.now) (keys_of b.now) }
{
    is_named(a.first(), b) || is_named(a.second(), b) || is_one_named(a.items(), b)
}

// Whether the key of an item is a key of the command.
fn is_one_named(items: Items<'_>, b: &Command) -> bool
    ensures { result ≡ share_key (item_keys items.entry) (keys_of b.now) }
{
    let mut items = items;
    while let Some(item) = items.next() {
        if b.names(item.key) {
            return true;
        }
    }
    false
}

// Whether the bytes, if there are any, are a key of the command.
#[inline(always)]
fn is_named(bytes: &[u8], b: &Command) -> bool
    ensures { result ≡ share_key (listed (key_if_any bytes.now)) (keys_of b.now) }
{
    !bytes.is_empty() && b.names(bytes)
}

/// Interference is symmetric; a no-op interferes with nothing, itself included, and a seal with everything else, itself included.
pub fn interference_law()
    ensures { InterferenceLaw }
{}

/// A command of a machine outside interferes by its footprint alone: with another one if they have a key in common and don't both only read, with a get of one of its keys if it doesn't only read, and with a put to one of its keys.
pub fn footprint_law()
    ensures { FootprintLaw }
{}
