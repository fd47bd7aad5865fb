//! Layers over a listing: the changes of generations that ended, which stay as they are, the newest last.

ghost use Rattle.std.specs.Prelude.{◌≡◌, ◌≤◌, ◌<◌, ◌++◌, ◌∷◌, [], None, MatchOption, IfOk};
ghost use Rattle.std.specs.Arc.{arc_value};
ghost use Rattle.std.specs.Map.{lookup};
ghost use Rattle.std.specs.Option.{option_copied};
ghost use Rattle.ep_rules.specs.OneMap.{Contents};
ghost use Rattle.ep_space.specs.Index.{is_at};
ghost use Rattle.ep_exec.specs.Layers.{changes_in, layers_of, stacked, reported_by, reported_over};
ghost use Rattle.ep_exec.specs.Table.{over};

use crate::changes::{Changes, copy_changes, put_over};
use ep_base::Value;
use std::alloc::{AllocError, Global};
use std::sync::Arc;

/// What the layer says of the key, or else what is known already.
fn reported_over<'a>(
    layer: &'a Changes,
    key: &[u8],
    reported: Option<&'a Option<Value>>,
) -> Option<&'a Option<Value>>
    ensures { option_copied result ≡ reported_over (lookup (is_at key.now) layer.now.entries) (option_copied reported.entry) }
{
    match layer.get(key) {
        Some(value) => Some(value),
        None => reported,
    }
}

/// What the newest layer that says something of the key says of it.
pub fn reported<'a>(layers: &'a [Arc<Changes>], key: &[u8]) -> Option<&'a Option<Value>>
    ensures { option_copied result ≡ reported_by key.now None (layers_of layers.now) }
{
    let mut reported = None;
    for layer in layers {
        reported = reported_over(layer, key, reported);
    }
    reported
}

/// How many changes there are in all.
pub fn count(layers: &[Arc<Changes>]) -> usize
    ensures { result < 4000000000 → changes_in (layers_of layers.now) ≤ result }
{
    let mut count = 0usize;
    for layer in layers {
        count = count.saturating_add(layer.len());
    }
    count
}

/// The same layers again, in the same memory.
pub fn shared(alloc: Global, layers: &[Arc<Changes>]) -> Result<Vec<Arc<Changes>>, AllocError>
    ensures { IfOk result (λ copy. layers_of copy.items ≡ layers_of layers.now) }
{
    let mut copy = Vec::with_capacity(alloc, layers.len())?;
    for layer in layers {
        copy.push(Arc::try_clone(layer)?)?;
    }
    Ok(copy)
}

/// The changes of a layer, for one owner: a copy, where somebody else has them too.
fn unshared(alloc: Global, layer: Arc<Changes>) -> Result<Changes, AllocError>
    ensures { IfOk result (λ c. (m : Contents) → over m c.entries ≡ over m (arc_value layer).entries) }
{
    match Arc::try_unwrap(layer) {
        Ok(own) => Ok(own),
        Err(shared) => copy_changes(alloc, &shared),
    }
}

/// The changes over those of the layer.
fn joined(alloc: Global, layer: Arc<Changes>, changes: Changes) -> Result<Changes, AllocError>
    ensures { IfOk result (λ c. (m : Contents) → over m c.entries ≡ over (over m (arc_value layer).entries) changes.entries) }
{
    let older = unshared(alloc, layer)?;
    put_over(older, changes)
}

/// Takes the newest layer, unless it has more than twice as many changes as these, or more than 4,096.
fn take_small(layers: &mut Vec<Arc<Changes>>, changes: &Changes) -> Option<Arc<Changes>>
    ensures { MatchOption result (layers.new.items ≡ layers.old.items) (λ layer. layers.old.items ≡ layers.new.items ++ layer ∷ []) }
{
    let newest = layers.last()?.len();
    if newest > 4_096 || newest / 2 > changes.len() {
        return None;
    }
    layers.pop()
}

/// These changes, over those of the newest layers, which are taken: of each that has at most twice as many as are
/// gathered before it, and at most 4,096. So small layers don't pile up, and it takes no longer than some thousands
/// of changes do.
pub fn gathered(
    alloc: Global,
    layers: &mut Vec<Arc<Changes>>,
    changes: Changes,
) -> Result<Changes, AllocError>
    ensures { IfOk result (λ c. (m : Contents) → over (stacked m (layers_of layers.new.items)) c.entries ≡ over (stacked m (layers_of layers.old.items)) changes.entries) }
{
    let mut changes = changes;
    while let Some(layer) = take_small(layers, &changes) {
        changes = joined(alloc, layer, changes)?;
    }
    Ok(changes)
}

/// These changes, over those of all layers.
pub fn all_gathered(
    alloc: Global,
    layers: Vec<Arc<Changes>>,
    changes: Changes,
) -> Result<Changes, AllocError>
    ensures { IfOk result (λ c. (m : Contents) → over m c.entries ≡ over (stacked m (layers_of layers.items)) changes.entries) }
{
    let mut layers = layers;
    let mut changes = changes;
    while let Some(layer) = layers.pop() {
        changes = joined(alloc, layer, changes)?;
    }
    Ok(changes)
}
