//! Changes in order are merged into a listing that stays as it is, some keys at a time.

ghost use Rattle.std.specs.Prelude.{◌≡◌, ℕ, List, true, false, drop, IfOk, MatchResult};
ghost use Rattle.ep_exec.specs.Merging.{merged, starts_at, Rise};
ghost use Rattle.ep_exec.specs.Settling.{leads, IsMerging};

use crate::changes::copied;
use crate::contents_fault::ContentsFault;
use crate::merging::{Tree, push_said};
use ep_base::{Key, Value};
use std::alloc::{AllocError, Global};
use std::cmp::Ordering;

/// Entries that are copied, with changes that are merged into them.
#[derive(Drop)]
pub struct Slices {
    /// The changes that are left,
    pub tree: Tree,
    /// how many of the entries stand before what is left of them,
    pub place: usize,
    /// and what was made of the rest.
    pub items: Vec<(Key, Value)>,
}

/// Whether the entry in this place comes next: there is one, and no change is left of its key, or of one below.
fn is_next(base: &[(Key, Value)], place: usize, tree: &Tree) -> bool
    ensures { result ≡ leads (drop place base.now) tree.now.entries }
{
    let Some(entry) = base.get(place) else {
        return false;
    };
    match tree.first_key_value() {
        None => true,
        Some((name, _)) => entry.0.as_slice().cmp(name.as_slice()) == Ordering::Less,
    }
}

/// Whether the entry in this place is of this key.
fn is_of(base: &[(Key, Value)], place: usize, name: &[u8]) -> bool
    ensures { result ≡ starts_at name.now (drop place base.now) }
{
    match base.get(place) {
        None => false,
        Some(entry) => entry.0.as_slice().cmp(name) == Ordering::Equal,
    }
}

/// Copies the entry that comes next.
fn copy_entry(
    alloc: Global,
    base: &[(Key, Value)],
    slices: &mut Slices,
) -> Result<(), ContentsFault>
    requires { leads (drop slices.old.place base.now) slices.old.tree.entries ≡ true }
    ensures { (whole : List (List ℕ × List ℕ)) → IsMerging whole base.now slices.old → IsMerging whole base.now slices.new }
{
    slices.items.reserve(1)?;
    let Some((key, value)) = base.get(slices.place) else {
        return Err(ContentsFault::Memory);
    };
    let key = key.copy(alloc)?;
    let value = value.copy(alloc)?;
    slices.items.push_reserved((key, value));
    slices.place += 1;
    Ok(())
}

/// Takes the first change, in the place of an entry of its key.
fn take_change(
    alloc: Global,
    base: &[(Key, Value)],
    slices: &mut Slices,
) -> Result<(), ContentsFault>
    requires { leads (drop slices.old.place base.now) slices.old.tree.entries ≡ false }
    ensures { (whole : List (List ℕ × List ℕ)) → IsMerging whole base.now slices.old → IsMerging whole base.now slices.new }
{
    let Some((name, value)) = slices.tree.first_key_value() else {
        return Err(ContentsFault::Memory);
    };
    let is_same = is_of(base, slices.place, name.as_slice());
    let value = copied(alloc, value.as_ref())?;
    push_said(alloc, &mut slices.items, name.as_slice(), value)?;
    let _was = slices.tree.pop_first();
    if is_same {
        slices.place += 1;
    }
    Ok(())
}

/// Goes on by one key: whether it did.
fn merge_one(alloc: Global, base: &[(Key, Value)], slices: &mut Slices) -> bool
    ensures { (whole : List (List ℕ × List ℕ)) → IsMerging whole base.now slices.old → IsMerging whole base.now slices.new }
{
    let done = if is_next(base, slices.place, &slices.tree) {
        copy_entry(alloc, base, slices)
    } else {
        take_change(alloc, base, slices)
    };
    done.is_ok()
}

/// Goes on by at most so many keys; by fewer where all is merged, or memory is refused.
pub fn merged_on(alloc: Global, base: &[(Key, Value)], slices: Slices, most: usize) -> Slices
    ensures { (whole : List (List ℕ × List ℕ)) → IsMerging whole base.now slices → IsMerging whole base.now result }
{
    let mut slices = slices;
    let mut left = most;
    while left > 0 {
        left = if merge_one(alloc, base, &mut slices) {
            left - 1
        } else {
            0
        };
    }
    slices
}

/// What was made of all of the entries and changes; as it was, where some are left.
pub fn whole(base: &[(Key, Value)], slices: Slices) -> Result<Vec<(Key, Value)>, Slices>
    ensures { MatchResult result (λ items. (whole : List (List ℕ × List ℕ)) → IsMerging whole base.now slices → items.items ≡ whole) (λ rest. rest ≡ slices) }
{
    if slices.place < base.len() || !slices.tree.is_empty() {
        return Err(slices);
    }
    let Slices {
        tree,
        place: _,
        items,
    } = slices;
    drop(tree);
    Ok(items)
}

impl Slices {
    /// Nothing of the entries, and none of the changes, is merged yet.
    pub fn new(alloc: Global, base: &[(Key, Value)], tree: Tree) -> Result<Slices, AllocError>
        ensures is { IfOk result (IsMerging (merged base.now tree.entries) base.now) }
        ensures rise { IfOk result (λ _. Rise tree.entries) }
    {
        let room = base.len().saturating_add(tree.len());
        let items = Vec::with_capacity(alloc, room)?;
        Ok(Slices {
            tree,
            place: 0,
            items,
        })
    }
}

/// The entries with these changes, in a list of its own.
pub fn all_merged(
    alloc: Global,
    base: &[(Key, Value)],
    tree: Tree,
) -> Result<Vec<(Key, Value)>, AllocError>
    ensures is { IfOk result (λ items. items.items ≡ merged base.now tree.entries) }
    ensures rise { IfOk result (λ _. Rise tree.entries) }
{
    let slices = Slices::new(alloc, base, tree)?;
    let slices = merged_on(alloc, base, slices, usize::MAX);
    match whole(base, slices) {
        Ok(items) => Ok(items),
        Err(rest) => {
            drop(rest);
            Err(AllocError)
        }
    }
}
