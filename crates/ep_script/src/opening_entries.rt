//! The entries of an opening.

ghost use Rattle.std.specs.Prelude.{◌≡◌, ◌++◌, ◌∷◌, [], true, false, IfOk, OnErr, MatchBool};
ghost use Rattle.std.specs.BTreeSet.{contains};
ghost use Rattle.ep_script.specs.Heads.{AreOnce, has_key_of};
ghost use Rattle.ep_script.specs.Keys.{name_cmp};

use ep_base::{Key, Value};
use std::alloc::{AllocError, Global};
use std::collections::BTreeSet;
use std::marker::Model;

// Whether there is this key.
fn has_name(keys: &BTreeSet<Vec<u8>>, name: &Vec<u8>) -> bool
    ensures { result ≡ contains name_cmp keys.now name.now }
{
    keys.contains(name)
}

/// The entries of an opening, no two of one key. Contracts see them as a list.
#[derive(Drop)]
pub(crate) struct OpeningEntries {
    items: Vec<(Key, Value)>,
    /// Their keys, so that one is found among many.
    keys: BTreeSet<Vec<u8>>,
}

impl Model for OpeningEntries {
    ghost use Rattle.std.specs.Prelude.{ℕ, List};
    ghost use Rattle.ep_script.specs.Heads.{AreOnce};
    ghost use Rattle.ep_script.specs.Keys.{HasKeys};

    ghost Value = { List (List ℕ × List ℕ) };

    ghost view = { λ s. s.items.items };

    ghost invariant = { λ s. HasKeys s.keys s.items.items × AreOnce s.items.items };
}

impl OpeningEntries {
    /// No entries.
    pub(crate) fn new(alloc: Global) -> OpeningEntries
        ensures { result ≡ [] }
    {
        OpeningEntries {
            items: Vec::new(alloc),
            keys: BTreeSet::new(alloc),
        }
    }

    /// Adds an entry at the end. False where there is one of its key, and then, as at an `Err`, nothing has changed.
    pub(crate) fn push(&mut self, alloc: Global, key: Key, value: Value) -> Result<bool, AllocError>
        ensures ok { IfOk result (λ b. MatchBool b ((has_key_of (key, value) self.old ≡ false) × (self.new ≡ self.old ++ (key, value) ∷ [])) ((has_key_of (key, value) self.old ≡ true) × (self.new ≡ self.old))) }
        ensures err { OnErr result (self.new ≡ self.old) }
    {
        let name = Vec::from_slice(alloc, key.as_slice())?;
        if has_name(&self.keys, &name) {
            return Ok(false);
        }
        self.items.push((key, value))?;
        if self.keys.insert(name).is_err() {
            self.items.pop();
            return Err(AllocError);
        }
        Ok(true)
    }

    /// The entries.
    pub(crate) fn into_items(self) -> Vec<(Key, Value)>
        ensures value { result.items ≡ self }
        ensures once { AreOnce self }
    {
        let OpeningEntries { items, keys: _ } = self;
        items
    }
}
