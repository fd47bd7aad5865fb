//! What the keys of a map have, in rising order of keys.

ghost use Rattle.std.specs.Prelude.{◌≡◌, ◌↔◌, ◌++◌, ◌∷◌, [], ℕ, List, IsTrue, true, OnOk, OnErr, IfOk, IfErr};
ghost use Rattle.std.specs.Arc.{arc_value};
ghost use Rattle.std.specs.Option.{option_copied};
ghost use Rattle.std.specs.Ordering.{is_lt};
ghost use Rattle.std.specs.FinMap.{entries as entries_in, find, from_sorted, is_sorted};
ghost use Rattle.ep_exec.specs.Taking.{IsNotTaken};
ghost use Rattle.ep_exec.specs.Shared.{items_of};
ghost use Rattle.ep_exec.specs.Table.{key_cmp};
ghost use Rattle.ep_rules.specs.OneMap.{empty, value_at};

use crate::contents_fault::ContentsFault;
use ep_base::{Key, Value};
use std::alloc::{AllocError, Global};
use std::cmp::Ordering;
use std::marker::Model;
use std::sync::Arc;

/// What the keys of an open map have: each key that has a value once, in strictly rising order of keys. Keys are
/// ordered by their bytes from the first one on, and a key comes before the longer ones that begin with it.
///
/// Copies share their entries: a copy takes the same time and memory however many there are.
pub struct Listing {
    alloc: Global,
    // (no key has a value where there is none)
    shared: Option<Arc<Vec<(Key, Value)>>>,
}

// (by hand, so that no crate above proves again how the parts are dropped)
impl Drop for Listing {
    fn drop(self) {
        let Listing { alloc: _, shared } = self;
        drop(shared);
    }
}

impl Model for Listing {
    ghost use Rattle.std.specs.Prelude.{◌≡◌, true};
    ghost use Rattle.std.specs.FinMap.{from_sorted, is_sorted};
    ghost use Rattle.ep_rules.specs.OneMap as one_map;
    ghost use Rattle.ep_exec.specs.Shared.{items_of};
    ghost use Rattle.ep_exec.specs.Table.{contents_code, key_cmp};

    ghost Value = { one_map.Contents };

    ghost coded = { contents_code };

    ghost view = { λ c. from_sorted (items_of c.shared) };

    ghost invariant = { λ c. is_sorted key_cmp (items_of c.shared) ≡ true };
}

impl Listing {
    /// No key has a value.
    #[tactic(auto, using(crate::proofs::Rising::none_is_empty))]
    pub fn new(alloc: Global) -> Listing
        ensures { result ≡ empty }
    {
        Listing {
            alloc,
            shared: None,
        }
    }

    /// These entries, whose keys rise strictly.
    pub(crate) fn of_sorted(alloc: Global, items: Vec<(Key, Value)>) -> Result<Listing, AllocError>
        requires { is_sorted key_cmp items.items ≡ true }
        ensures { IfOk result (λ c. c ≡ from_sorted items.items) }
    {
        let shared = Some(Arc::new(alloc, items)?);
        Ok(Listing { alloc, shared })
    }

    /// Whether the key is above all that are there, so that it may be the next one.
    #[tactic(auto, using(crate::proofs::Rising::list_is))]
    pub fn is_below(&self, key: &Key) -> bool
        ensures { (value : List ℕ) → result ≡ is_sorted key_cmp (entries_in self.now ++ (key.now, value) ∷ []) }
    {
        is_above(listed(&self.shared), key)
    }

    /// Takes one more key, with what it has; `NotAbove` unless the key is above all that are there. As it was at an
    /// `Err`.
    #[tactic(auto, using(crate::proofs::Rising::pushed, crate::proofs::Rising::still_sorted, crate::proofs::Rising::list_is))]
    pub fn push(&mut self, key: Key, value: Value) -> Result<(), ContentsFault>
        ensures ok { OnOk result (entries_in self.new ≡ entries_in self.old ++ (key, value) ∷ []) }
        ensures above { OnOk result (is_sorted key_cmp (entries_in self.old ++ (key, value) ∷ []) ≡ true) }
        ensures refused { IfErr result (λ fault. IsNotTaken self.old key value fault) }
        ensures err { OnErr result (self.new ≡ self.old) }
    {
        if !is_above(listed(&self.shared), &key) {
            return Err(ContentsFault::NotAbove);
        }
        add(self.alloc, &mut self.shared, (key, value))?;
        Ok(())
    }

    #[tactic(auto, using(crate::proofs::Rising::list_is))]
    /// The keys, strictly rising, each with what it has.
    pub fn entries(&self) -> &[(Key, Value)]
        ensures { result.now ≡ entries_in self.now }
    {
        listed(&self.shared)
    }

    /// What the key has.
    pub fn get(&self, key: &[u8]) -> Option<&Value>
        ensures { option_copied result ≡ value_at self.now key.now }
    {
        found(listed(&self.shared), key)
    }

    /// The same again, with the same entries in memory.
    pub fn copy(&self, alloc: Global) -> Result<Listing, AllocError>
        ensures { IfOk result (λ c. c ≡ self.now) }
    {
        let shared = match &self.shared {
            None => None,
            Some(items) => Some(Arc::try_clone(items)?),
        };
        Ok(Listing { alloc, shared })
    }

    /// The entries: they are moved, where no copy shares them.
    #[tactic(auto, using(crate::proofs::Rising::list_is))]
    pub(crate) fn into_items(self) -> Result<Vec<(Key, Value)>, AllocError>
        ensures { IfOk result (λ items. items.items ≡ entries_in self) }
    {
        let Listing { alloc, shared } = self;
        match shared {
            None => Ok(Vec::new(alloc)),
            Some(items) => unshared(alloc, items),
        }
    }

    /// Whether both say that each key has the same.
    pub fn is_same(&self, other: &Listing) -> bool
        ensures { IsTrue result ↔ (self.now ≡ other.now) }
    {
        are_same(self.entries(), other.entries())
    }
}

/// The entries.
fn listed(shared: &Option<Arc<Vec<(Key, Value)>>>) -> &[(Key, Value)]
    ensures { result.now ≡ items_of shared.now }
{
    match shared {
        None => <&[(Key, Value)]>::default(),
        Some(items) => items.as_slice(),
    }
}

/// The entries, for one owner.
fn unshared(alloc: Global, items: Arc<Vec<(Key, Value)>>) -> Result<Vec<(Key, Value)>, AllocError>
    ensures { IfOk result (λ own. own.items ≡ (arc_value items).items) }
{
    match Arc::try_unwrap(items) {
        Ok(own) => Ok(own),
        Err(shared) => copied(alloc, shared.as_slice()),
    }
}

/// One entry more, in a list of its own where the list is shared. As it was at an `Err`.
fn add(
    alloc: Global,
    shared: &mut Option<Arc<Vec<(Key, Value)>>>,
    entry: (Key, Value),
) -> Result<(), AllocError>
    ensures ok { OnOk result (items_of shared.new ≡ items_of shared.old ++ entry ∷ []) }
    ensures err { OnErr result (items_of shared.new ≡ items_of shared.old) }
{
    if let Some(items) = shared {
        if let Some(own) = Arc::get_mut(items) {
            own.reserve(1)?;
            own.push_reserved(entry);
            return Ok(());
        }
    }
    let mut items = copied(alloc, listed(shared))?;
    items.push(entry)?;
    *shared = Some(Arc::new(alloc, items)?);
    Ok(())
}

/// What the key has among entries whose keys rise strictly.
fn found<'a>(items: &'a [(Key, Value)], key: &[u8]) -> Option<&'a Value>
    requires { is_sorted key_cmp items.now ≡ true }
    ensures { option_copied result ≡ find key_cmp key.now items.now }
{
    match items.binary_search_by(|entry| compared(entry, key)) {
        Ok(index) => Some(&items[index].1),
        Err(_) => None,
    }
}

/// How the entry's key stands to the other one.
fn compared(entry: &(Key, Value), key: &[u8]) -> Ordering
    ensures { result ≡ key_cmp entry.now.0 key.now }
{
    entry.0.as_slice().cmp(key)
}

/// Whether the key is above the last one, and so above all.
#[tactic(auto, using(crate::proofs::Rising::first_key))]
fn is_above(items: &[(Key, Value)], key: &Key) -> bool
    requires { is_sorted key_cmp items.now ≡ true }
    ensures { (value : List ℕ) → result ≡ is_sorted key_cmp (items.now ++ (key.now, value) ∷ []) }
{
    let Some(last) = items.last() else {
        return true;
    };
    is_below(&last.0, key)
}

/// Whether the first key stands below the other one.
fn is_below(key: &Key, other: &Key) -> bool
    ensures { result ≡ is_lt (key_cmp key.now other.now) }
{
    key.as_slice().cmp(other.as_slice()).is_lt()
}

/// The same entries again.
fn copied(alloc: Global, items: &[(Key, Value)]) -> Result<Vec<(Key, Value)>, AllocError>
    ensures { IfOk result (λ copy. copy.items ≡ items.now) }
{
    let mut copy = Vec::with_capacity(alloc, items.len())?;
    for (key, value) in items {
        let key = key.copy(alloc)?;
        let value = value.copy(alloc)?;
        copy.push((key, value))?;
    }
    Ok(copy)
}

/// Whether both lists are one.
#[tactic(auto, using(crate::proofs::Rising::same_start, crate::proofs::Rising::same_here, crate::proofs::Rising::not_as_long))]
fn are_same(items: &[(Key, Value)], others: &[(Key, Value)]) -> bool
    ensures { IsTrue result ↔ (items.now ≡ others.now) }
{
    if items.len() != others.len() {
        return false;
    }
    let mut same = true;
    for index in (0..items.len()).rev() {
        same = same && is_one(&items[index], &others[index]);
    }
    same
}

/// Whether both keys are one, and both values.
fn is_one(entry: &(Key, Value), other: &(Key, Value)) -> bool
    ensures { IsTrue result ↔ (entry.now ≡ other.now) }
{
    entry.0.is_same(&other.0) && entry.1.is_same(&other.1)
}
