//! What the keys of a map have.

ghost use Rattle.std.specs.Prelude.{◌≡◌, ◌≤◌, ◌↔◌, ◌⊎◌, ℕ, List, None, length, IsTrue, true, false, IfOk, IfErr};
ghost use Rattle.std.specs.Option.{option_copied};
ghost use Rattle.std.specs.FinMap.{entries};
ghost use Rattle.ep_rules.specs.OneMap.{empty, value_at};
ghost use Rattle.ep_exec.specs.Layers.{layers_of, stacked};
ghost use Rattle.ep_exec.specs.Sorting.{IsBad};
ghost use Rattle.ep_exec.specs.Table.{over};

use crate::agreeing::agree_in;
use crate::changes::Changes;
use crate::contents_fault::ContentsFault;
use crate::ground::Ground;
use crate::layers::{all_gathered, count, gathered, reported, shared};
use crate::listing::Listing;
use crate::merging::merged;
use ep_base::Value;
use std::alloc::{AllocError, Global};
use std::marker::Model;
use std::mem;
use std::sync::Arc;

/// What the keys of an open map have: a listing, and over it layers, each of them the changes of one or more
/// generations that ended. A look-up asks the newest layer first, and the listing last.
///
/// A copy shares the listing and the layers: it takes the same time and memory however many keys there are. What a
/// generation changed becomes a layer, and nothing of the size of the map is moved. Where there are 8 layers, or as
/// many changes as an eighth of the keys, they are put into the listing by `settle_some`, some keys at a time, while
/// newer layers come on top.
pub struct Contents {
    alloc: Global,
    ground: Ground,
    // (with more than 4,000,000,000 keys there is none)
    layers: Vec<Arc<Changes>>,
}

// (by hand, so that no crate above proves again how the parts are dropped)
impl Drop for Contents {
    fn drop(self) {
        let Contents {
            alloc: _,
            ground,
            layers,
        } = self;
        drop(ground);
        drop(layers);
    }
}

impl Model for Contents {
    ghost use Rattle.std.specs.Prelude.{◌≡◌, ◌≤◌, ◌⊎◌, [], length};
    ghost use Rattle.std.specs.FinMap.{entries};
    ghost use Rattle.ep_rules.specs.OneMap as one_map;
    ghost use Rattle.ep_exec.specs.Layers.{layers_of, stacked};
    ghost use Rattle.ep_exec.specs.Table.{contents_code};

    ghost Value = { one_map.Contents };

    ghost coded = { contents_code };

    ghost view = { λ c. stacked c.ground (layers_of c.layers.items) };

    ghost invariant = { λ c. (layers_of c.layers.items ≡ []) ⊎ (length (entries (stacked c.ground (layers_of c.layers.items))) ≤ 4000000000) };
}

impl Contents {
    /// No key has a value.
    pub fn new(alloc: Global) -> Contents
        ensures { result ≡ empty }
    {
        Contents::of(alloc, Listing::new(alloc))
    }

    /// What the keys have in this listing.
    pub fn of(alloc: Global, listing: Listing) -> Contents
        ensures { result ≡ listing }
    {
        Contents {
            alloc,
            ground: Ground::of(alloc, listing),
            layers: Vec::new(alloc),
        }
    }

    /// What the key has.
    pub fn get(&self, key: &[u8]) -> Option<&Value>
        ensures { option_copied result ≡ value_at self.now key.now }
    {
        match reported(&self.layers, key) {
            Some(value) => value.as_ref(),
            None => self.ground.get(key),
        }
    }

    /// Whether it is seen at once that no key has a value.
    pub(crate) fn is_bare(&self) -> bool
        ensures { (k : List ℕ) → result ≡ true → value_at self.now k ≡ None }
    {
        self.layers.is_empty() && self.ground.is_bare()
    }

    /// Whether at most so many keys have a value.
    pub fn is_within(&self, most: usize) -> bool
        requires { 4000000000 ≤ most }
        ensures { IsTrue result ↔ (length (entries self.now) ≤ most) }
    {
        !self.layers.is_empty() || self.ground.is_within(most)
    }

    /// The keys in rising order, each with what it has: a copy, where there are layers, and otherwise the same
    /// entries in memory.
    pub fn listing(&self) -> Result<Listing, AllocError>
        ensures { IfOk result (λ l. l ≡ self.now) }
    {
        self.ground.listing(&self.layers)
    }

    /// Makes one listing of all, where there are layers: a copy, however few changes there are. As it was at an
    /// `Err`.
    pub fn settle(&mut self) -> Result<(), AllocError>
        ensures { self.new ≡ self.old }
    {
        let listing = self.listing()?;
        self.ground = Ground::of(self.alloc, listing);
        self.layers = Vec::new(self.alloc);
        Ok(())
    }

    /// Goes on with putting layers into the listing, where it is time for that, by some keys. A store does so at each
    /// command, so that it's done when three or four generations have ended.
    pub(crate) fn settle_some(&mut self)
        ensures { self.new ≡ self.old }
    {
        self.ground.settle_some();
    }

    /// A copy that shares the entries in memory.
    pub fn copy(&self, alloc: Global) -> Result<Contents, AllocError>
        ensures { IfOk result (λ c. c ≡ self.now) }
    {
        let layers = shared(alloc, &self.layers)?;
        let ground = self.ground.copy(alloc)?;
        Ok(Contents {
            alloc,
            ground,
            layers,
        })
    }

    /// The same again, as `copy` gives it; but what was done of putting layers into the listing goes with that one,
    /// and this one begins anew. As it was at an `Err`.
    pub fn hand_on(&mut self, alloc: Global) -> Result<Contents, AllocError>
        ensures result { IfOk result (λ c. c ≡ self.old) }
        ensures same { self.new ≡ self.old }
    {
        let copy = self.copy(alloc)?;
        Ok(mem::replace(self, copy))
    }

    /// The contents with these changes; `OutOfRange` where a key that then has a value isn't of 1 to 255 bytes.
    pub(crate) fn changed(self, changes: Changes) -> Result<Contents, ContentsFault>
        ensures ok { IfOk result (λ c. c ≡ over self changes.entries) }
        ensures refused { IfErr result (λ fault. IsBad (entries (over self changes.entries)) fault) }
    {
        if changes.is_empty() {
            drop(changes);
            return Ok(self);
        }
        let Contents {
            alloc,
            ground,
            layers,
        } = self;
        let mut layers = layers;
        let changes = gathered(alloc, &mut layers, changes)?;
        if is_small(&ground, &layers, &changes) {
            remade(alloc, ground, layers, changes)
        } else {
            let contents = layered(alloc, ground, layers, changes)?;
            Ok(contents)
        }
    }

    /// Whether both say that each key has the same.
    pub fn is_same(&self, other: &Contents) -> bool
        ensures { IsTrue result ↔ (self.now ≡ other.now) }
    {
        agree(self, other, &self.ground, &self.layers)
            && agree(self, other, &other.ground, &other.layers)
    }
}

/// Whether each key of these has the same in both maps.
fn agree(one: &Contents, other: &Contents, ground: &Ground, layers: &[Arc<Changes>]) -> bool
    ensures same { result ≡ true → (q : List ℕ) → (value_at (stacked ground.now (layers_of layers.now)) q ≡ None) ⊎ (value_at one.now q ≡ value_at other.now q) }
    ensures own { one.now ≡ other.now → result ≡ true }
{
    ground.is_agreed(one, other) && agree_in(one, other, layers)
}

/// Whether there are so few keys and changes that one listing is made of all at once; in any case where the map may
/// have more than 4,000,000,000 keys.
fn is_small(ground: &Ground, layers: &[Arc<Changes>], changes: &Changes) -> bool
    ensures { result ≡ false → length (entries (over (stacked ground.now (layers_of layers.now)) changes.now.entries)) ≤ 4000000000 }
{
    let many = count(layers).saturating_add(changes.len());
    let all = many.saturating_add(ground.at_most());
    all <= 8_192 || all > 3_000_000_000
}

/// The changes as one layer more.
fn layered(
    alloc: Global,
    ground: Ground,
    layers: Vec<Arc<Changes>>,
    changes: Changes,
) -> Result<Contents, AllocError>
    requires { length (entries (over (stacked ground (layers_of layers.items)) changes.entries)) ≤ 4000000000 }
    ensures { IfOk result (λ c. c ≡ over (stacked ground (layers_of layers.items)) changes.entries) }
{
    let mut ground = ground;
    let mut layers = layers;
    layers.reserve(1)?;
    let layer = Arc::new(alloc, changes)?;
    layers.push_reserved(layer);
    ground.sink(&mut layers);
    Ok(Contents {
        alloc,
        ground,
        layers,
    })
}

/// All of it as one listing.
fn remade(
    alloc: Global,
    ground: Ground,
    layers: Vec<Arc<Changes>>,
    changes: Changes,
) -> Result<Contents, ContentsFault>
    ensures ok { IfOk result (λ c. c ≡ over (stacked ground (layers_of layers.items)) changes.entries) }
    ensures refused { IfErr result (λ fault. IsBad (entries (over (stacked ground (layers_of layers.items)) changes.entries)) fault) }
{
    let changes = all_gathered(alloc, layers, changes)?;
    let (listing, older) = ground.into_parts();
    let changes = all_gathered(alloc, older, changes)?;
    let items = merged(alloc, listing, changes)?;
    let listing = Listing::of_sorted(alloc, items)?;
    Ok(Contents::of(alloc, listing))
}
