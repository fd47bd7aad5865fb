//! What a line `tx` says, key by key.

ghost use Rattle.std.specs.Prelude.{◌≡◌, ◌≤◌, ◌<◌, ◌++◌, ◌∷◌, [], Some, None, true, IfOk, OnErr, OnOk, MatchBool, length, drop};
ghost use Rattle.ep_base.specs.CommandParts.{items_bytes, tx_bytes};
ghost use Rattle.ep_script.specs.Clauses.{below, begins_with, with_said, MergingLaw};

use crate::clause::Clause;
use crate::tx_item::TxItem;
use ep_base::Key;
use std::alloc::{AllocError, Global};
use std::marker::Model;

/// The items of a command over many keys, in rising order of their keys, each of which stands once. Contracts see them as a list.
#[derive(Drop)]
pub(crate) struct TxItems {
    items: Vec<TxItem>,
}

impl Model for TxItems {
    ghost use Rattle.std.specs.Prelude.{List};
    ghost use Rattle.ep_base.specs.Items.{Item};

    ghost Value = { List Item };

    ghost view = { λ t. t.items.items };
}

impl TxItems {
    /// No items.
    pub(crate) fn new(alloc: Global) -> TxItems
        ensures { result ≡ [] }
    {
        TxItems {
            items: Vec::new(alloc),
        }
    }

    /// How many items there are.
    pub(crate) fn len(&self) -> usize
        ensures { result ≡ length self.now }
    {
        self.items.len()
    }

    /// Adds what is said of a key. False where something of the kind is said of it, and then, as at an `Err`, nothing has changed.
    pub(crate) fn add(&mut self, key: Key, clause: Clause) -> Result<bool, AllocError>
        ensures ok { IfOk result (λ b. MatchBool b (with_said (record { key = key; clause = clause }) self.old ≡ Some self.new) ((with_said (record { key = key; clause = clause }) self.old ≡ None) × (self.new ≡ self.old))) }
        ensures err { OnErr result (self.new ≡ self.old) }
    {
        let place = place_of(self.items.as_slice(), key.as_slice());
        if is_at(self.items.as_slice(), place, key.as_slice()) {
            return Ok(self.items[place].add(clause));
        }
        self.items.insert(place, TxItem::new(key, clause))?;
        Ok(true)
    }

    /// The body that these items are.
    pub(crate) fn body(&self, alloc: Global) -> Result<Vec<u8>, AllocError>
        requires { length self.now ≤ 65535 }
        ensures { IfOk result (λ b. b.items ≡ tx_bytes self.now) }
    {
        let count = self.items.len();
        let mut body = Vec::new(alloc);
        body.extend_from_slice(&[(count / 256) as u8, (count % 256) as u8])?;
        push_items(&mut body, self.items.as_slice())?;
        Ok(body)
    }
}

/// How many items stand before the first one whose key isn't below this one.
fn place_of(items: &[TxItem], key: &[u8]) -> usize
    ensures value { result ≡ below key.now items.now }
    ensures bound { result ≤ length items.now }
{
    let mut place = 0usize;
    let mut rest = items;
    while let [first, after @ ..] = rest {
        if !first.key().cmp(key).is_lt() {
            return place;
        }
        place += 1;
        rest = after;
    }
    place
}

/// Whether the item at this place is there, and has this key.
fn is_at(items: &[TxItem], place: usize, key: &[u8]) -> bool
    requires { place ≤ length items.now }
    ensures value { result ≡ begins_with key.now (drop place items.now) }
    ensures there { result ≡ true → place < length items.now }
{
    match items.get(place) {
        None => false,
        Some(item) => item.key().cmp(key).is_eq(),
    }
}

fn push_items(body: &mut Vec<u8>, items: &[TxItem]) -> Result<(), AllocError>
    ensures { OnOk result (body.new.items ≡ body.old.items ++ items_bytes items.now) }
{
    for item in items {
        item.push_bytes(body)?;
    }
    Ok(())
}

/// A key has an item exactly where something is said of it, and the item says just that; none where one kind of thing is said twice.
#[tactic(auto, using(crate::proofs::SaidItems::merging_law))]
pub fn merging_law()
    ensures { MergingLaw }
{}
