//! The least key that has not the same in two maps.

ghost use Rattle.std.specs.Prelude.{◌≡◌, false, IfOk, MatchOption, drop, option_copied, slice_get};
ghost use Rattle.ep_audit.specs.Differences.{difference, is_same_at, lesser_key, lesser_of, IsLeastDifference};

use ep_base::{Key, Value};
use ep_exec::Contents;
use std::alloc::{AllocError, Global};

/// Whether both have an entry at this place, and the same.
fn is_same_at(entries: &[(Key, Value)], others: &[(Key, Value)], place: usize) -> bool
    ensures { result ≡ is_same_at (slice_get entries.now place) (slice_get others.now place) }
{
    let Some((key, value)) = entries.get(place) else {
        return false;
    };
    let Some((other_key, other_value)) = others.get(place) else {
        return false;
    };
    key.is_same(other_key) && value.is_same(other_value)
}

/// At how many places from the first one on both are the same.
fn same_start(entries: &[(Key, Value)], others: &[(Key, Value)]) -> usize
    ensures left { difference (drop result entries.now) (drop result others.now) ≡ difference entries.now others.now }
    ensures ended { is_same_at (slice_get entries.now result) (slice_get others.now result) ≡ false }
{
    let mut place = 0usize;
    while is_same_at(entries, others, place) {
        place += 1;
    }
    place
}

/// The lesser key of two entries that aren't the same; none where there is no entry.
fn lesser_key(
    alloc: Global,
    entry: Option<&(Key, Value)>,
    other: Option<&(Key, Value)>,
) -> Result<Option<Key>, AllocError>
    ensures { IfOk result (λ key. key ≡ lesser_key (option_copied entry.entry) (option_copied other.entry)) }
{
    match (entry, other) {
        (None, None) => Ok(None),
        (Some((key, _)), None) => Ok(Some(key.copy(alloc)?)),
        (None, Some((key, _))) => Ok(Some(key.copy(alloc)?)),
        (Some((key, _)), Some((other, _))) => Ok(Some(lesser_of(alloc, key, other)?)),
    }
}

/// The lesser key.
fn lesser_of(alloc: Global, key: &Key, other: &Key) -> Result<Key, AllocError>
    ensures { IfOk result (λ k. k ≡ lesser_of key.now other.now) }
{
    let turned = other.as_slice().cmp(key.as_slice()).is_lt();
    if turned {
        other.copy(alloc)
    } else {
        key.copy(alloc)
    }
}

/// The least key that has not the same in both maps; none where they are one.
pub(crate) fn first_difference(
    alloc: Global,
    one: &Contents,
    other: &Contents,
) -> Result<Option<Key>, AllocError>
    ensures { IfOk result (λ key. MatchOption key (one.now ≡ other.now) (λ k. IsLeastDifference one.now other.now k)) }
{
    let one = one.listing()?;
    let other = other.listing()?;
    let entries = one.entries();
    let others = other.entries();
    let place = same_start(entries, others);
    lesser_key(alloc, entries.get(place), others.get(place))
}
