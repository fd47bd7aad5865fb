//! What lies under a map's newest layers.

ghost use Rattle.std.specs.Prelude.{◌≡◌, ◌≤◌, ◌<◌, ◌↔◌, ◌⊎◌, ℕ, List, [], None, length, IsTrue, true, IfOk, IfSome};
ghost use Rattle.std.specs.Option.{option_copied};
ghost use Rattle.std.specs.FinMap.{entries};
ghost use Rattle.ep_rules.specs.OneMap.{value_at};
ghost use Rattle.ep_exec.specs.Layers.{layers_of, stacked};
ghost use Rattle.ep_exec.specs.Settling.{IsGathering, IsMerging};

use crate::agreeing::{agree_at, agree_in};
use crate::changes::Changes;
use crate::contents::Contents;
use crate::gathering::{Gathering, all_in_order, gathered_on};
use crate::layers::{count, reported, shared};
use crate::listing::Listing;
use crate::slices::{Slices, all_merged, merged_on, whole};
use ep_base::{Key, Value};
use std::alloc::{AllocError, Global};
use std::collections::BTreeMap;
use std::marker::Model;
use std::mem;
use std::sync::Arc;

/// A listing, and layers that are being put into it: their changes are brought into order, and then merged with
/// copies of the entries, some keys at a time (`settle_some`). Until all is done a look-up asks the layers and the
/// listing as they are.
///
/// A copy shares both, and begins anew with that.
pub struct Ground {
    alloc: Global,
    listing: Listing,
    // (with more than 4,000,000,000 keys there is none)
    older: Vec<Arc<Changes>>,
    // how many keys `settle_some` goes on by
    pace: usize,
    // which of the two it is at: neither, where it hasn't begun
    gathering: Option<Gathering>,
    slices: Option<Slices>,
}

// (by hand, so that no crate above proves again how the parts are dropped)
impl Drop for Ground {
    fn drop(self) {
        let Ground {
            alloc: _,
            listing,
            older,
            pace: _,
            gathering,
            slices,
        } = self;
        drop(listing);
        drop(older);
        drop(gathering);
        drop(slices);
    }
}

impl Model for Ground {
    ghost use Rattle.std.specs.Prelude.{◌≡◌, ◌≤◌, ◌⊎◌, [], length, IfSome};
    ghost use Rattle.std.specs.FinMap.{entries};
    ghost use Rattle.ep_rules.specs.OneMap as one_map;
    ghost use Rattle.ep_exec.specs.Layers.{layers_of, stacked};
    ghost use Rattle.ep_exec.specs.Settling.{IsGathering, IsMerging};
    ghost use Rattle.ep_exec.specs.Table.{contents_code};

    ghost Value = { one_map.Contents };

    ghost coded = { contents_code };

    ghost view = { λ g. stacked g.listing (layers_of g.older.items) };

    ghost invariant = { λ g. ((layers_of g.older.items ≡ []) ⊎ (length (entries (stacked g.listing (layers_of g.older.items))) ≤ 4000000000)) × IfSome g.gathering (IsGathering [] (layers_of g.older.items)) × IfSome g.slices (IsMerging (entries (stacked g.listing (layers_of g.older.items))) (entries g.listing)) };
}

impl Ground {
    /// This listing alone.
    pub fn of(alloc: Global, listing: Listing) -> Ground
        ensures { result ≡ listing }
    {
        Ground {
            alloc,
            listing,
            older: Vec::new(alloc),
            pace: 0,
            gathering: None,
            slices: None,
        }
    }

    /// What the key has.
    pub fn get(&self, key: &[u8]) -> Option<&Value>
        ensures { option_copied result ≡ value_at self.now key.now }
    {
        match reported(&self.older, key) {
            Some(value) => value.as_ref(),
            None => self.listing.get(key),
        }
    }

    /// Whether it is seen at once that no key has a value.
    pub fn is_bare(&self) -> bool
        ensures { (k : List ℕ) → result ≡ true → value_at self.now k ≡ None }
    {
        self.older.is_empty() && self.listing.entries().is_empty()
    }

    /// Whether at most so many keys have a value.
    pub fn is_within(&self, most: usize) -> bool
        requires { 4000000000 ≤ most }
        ensures { IsTrue result ↔ (length (entries self.now) ≤ most) }
    {
        !self.older.is_empty() || self.listing.entries().len() <= most
    }

    /// Whether each of its keys has the same in both maps.
    pub fn is_agreed(&self, one: &Contents, other: &Contents) -> bool
        ensures same { result ≡ true → (q : List ℕ) → (value_at self.now q ≡ None) ⊎ (value_at one.now q ≡ value_at other.now q) }
        ensures own { one.now ≡ other.now → result ≡ true }
    {
        agree_at(one, other, self.listing.entries()) && agree_in(one, other, &self.older)
    }

    /// A number of keys that isn't passed.
    pub fn at_most(&self) -> usize
        ensures { result < 4000000000 → length (entries self.now) ≤ result }
    {
        let keys = self.listing.entries().len();
        keys.saturating_add(count(&self.older))
    }

    /// The same again, with the same entries in memory.
    pub fn copy(&self, alloc: Global) -> Result<Ground, AllocError>
        ensures { IfOk result (λ g. g ≡ self.now) }
    {
        let older = shared(alloc, &self.older)?;
        let listing = self.listing.copy(alloc)?;
        Ok(Ground {
            alloc,
            listing,
            older,
            pace: self.pace,
            gathering: None,
            slices: None,
        })
    }

    /// All of it, with these layers over it, as one listing: a copy, where there is a layer, and otherwise the same
    /// entries in memory.
    pub fn listing(&self, layers: &[Arc<Changes>]) -> Result<Listing, AllocError>
        ensures { IfOk result (λ l. l ≡ stacked self.now (layers_of layers.now)) }
    {
        if self.older.is_empty() && layers.is_empty() {
            return self.listing.copy(self.alloc);
        }
        let tree = all_in_order(self.alloc, BTreeMap::new(self.alloc), &self.older)?;
        let tree = all_in_order(self.alloc, tree, layers)?;
        let items = all_merged(self.alloc, self.listing.entries(), tree)?;
        Listing::of_sorted(self.alloc, items)
    }

    /// The listing, and the layers over it.
    pub fn into_parts(self) -> (Listing, Vec<Arc<Changes>>)
        ensures { stacked result.0 (layers_of result.1.items) ≡ self }
    {
        let Ground {
            alloc: _,
            listing,
            older,
            pace: _,
            gathering,
            slices,
        } = self;
        drop(gathering);
        drop(slices);
        (listing, older)
    }

    /// Takes these layers, which are to be put into the listing, where none is being put there and it is time: they
    /// are many, or have an eighth as many changes as the listing has keys.
    pub fn sink(&mut self, layers: &mut Vec<Arc<Changes>>)
        requires { length (entries (stacked self.old (layers_of layers.old.items))) ≤ 4000000000 }
        ensures { stacked self.new (layers_of layers.new.items) ≡ stacked self.old (layers_of layers.old.items) }
    {
        if !self.older.is_empty() {
            return;
        }
        let (keys, many) = (self.listing.entries().len(), count(layers));
        if layers.len() < 8 && many <= keys / 8 {
            return;
        }
        self.pace = pace_of(keys, many);
        self.gathering = None;
        self.slices = None;
        self.older = mem::replace(layers, Vec::new(self.alloc));
    }

    /// Goes on with putting the layers into the listing, where there are any, by a number of keys that depends on how
    /// many there are: after some 30,000 calls it is done. Where memory is refused, it is done later.
    pub fn settle_some(&mut self)
        ensures { self.new ≡ self.old }
    {
        if self.older.is_empty() {
            return;
        }
        let gathering = self.gathering.take();
        match self.slices.take() {
            Some(slices) => {
                drop(gathering);
                self.slices = merge_some(
                    self.alloc,
                    &mut self.listing,
                    &mut self.older,
                    slices,
                    self.pace,
                );
            }
            None => {
                let (gathering, slices) = gather_some(
                    self.alloc,
                    &self.listing,
                    &self.older,
                    gathering,
                    self.pace / 4,
                );
                self.gathering = gathering;
                self.slices = slices;
            }
        }
    }
}

/// How many keys a call goes on by, where a listing has so many, and so many changes are put into it. Of changes that
/// are brought into order it takes a quarter as many, as that takes longer.
fn pace_of(keys: usize, many: usize) -> usize {
    8 + keys.saturating_add(many.saturating_mul(4)) / 32_768
}

/// What is under way, or else its beginning.
fn or_begun(alloc: Global, older: &[Arc<Changes>], gathering: Option<Gathering>) -> Gathering
    requires { IfSome gathering (IsGathering [] (layers_of older.now)) }
    ensures { IsGathering [] (layers_of older.now) result }
{
    match gathering {
        Some(gathering) => gathering,
        None => Gathering::new(BTreeMap::new(alloc), older),
    }
}

/// Brings more changes into order, from the first on where none is: what is under way then. When all are in order,
/// merging begins; where memory is refused for that, all begins anew.
fn gather_some(
    alloc: Global,
    listing: &Listing,
    older: &[Arc<Changes>],
    gathering: Option<Gathering>,
    pace: usize,
) -> (Option<Gathering>, Option<Slices>)
    requires { IfSome gathering (IsGathering [] (layers_of older.now)) }
    ensures gathers { IfSome result.0 (IsGathering [] (layers_of older.now)) }
    ensures merges { IfSome result.1 (IsMerging (entries (stacked listing.now (layers_of older.now))) (entries listing.now)) }
{
    let gathering = or_begun(alloc, older, gathering);
    let gathering = gathered_on(alloc, gathering, older, pace);
    if gathering.done < older.len() {
        return (Some(gathering), None);
    }
    let Gathering {
        tree,
        done: _,
        left: _,
    } = gathering;
    match Slices::new(alloc, listing.entries(), tree) {
        Ok(slices) => (None, Some(slices)),
        Err(_) => (None, None),
    }
}

/// Merges more keys: what is under way then. When all are merged, the listing is what they became, and no layer is
/// over it.
fn merge_some(
    alloc: Global,
    listing: &mut Listing,
    older: &mut Vec<Arc<Changes>>,
    slices: Slices,
    pace: usize,
) -> Option<Slices>
    requires { IsMerging (entries (stacked listing.old (layers_of older.old.items))) (entries listing.old) slices }
    ensures same { stacked listing.new (layers_of older.new.items) ≡ stacked listing.old (layers_of older.old.items) }
    ensures few { (layers_of older.new.items ≡ []) ⊎ (layers_of older.new.items ≡ layers_of older.old.items) }
    ensures merges { IfSome result (IsMerging (entries (stacked listing.new (layers_of older.new.items))) (entries listing.new)) }
{
    let slices = merged_on(alloc, listing.entries(), slices, pace);
    match whole(listing.entries(), slices) {
        Ok(items) => {
            settled(alloc, listing, older, items);
            None
        }
        Err(slices) => Some(slices),
    }
}

/// These are the entries of all. Where memory is refused, nothing changes.
fn settled(
    alloc: Global,
    listing: &mut Listing,
    older: &mut Vec<Arc<Changes>>,
    items: Vec<(Key, Value)>,
)
    requires { items.items ≡ entries (stacked listing.old (layers_of older.old.items)) }
    ensures same { stacked listing.new (layers_of older.new.items) ≡ stacked listing.old (layers_of older.old.items) }
    ensures few { (layers_of older.new.items ≡ []) ⊎ (layers_of older.new.items ≡ layers_of older.old.items) }
{
    if let Ok(whole) = Listing::of_sorted(alloc, items) {
        *listing = whole;
        *older = Vec::new(alloc);
    }
}
