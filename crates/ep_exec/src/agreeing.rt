//! Whether two maps have the same, asked key by key.

ghost use Rattle.std.specs.Prelude.{◌≡◌};
ghost use Rattle.ep_exec.specs.Agreeing.{agree_at, agree_by, agree_in, is_same_at};
ghost use Rattle.ep_exec.specs.Layers.{layers_of};

use crate::changes::Changes;
use crate::contents::Contents;
use ep_base::{Key, Value};
use std::sync::Arc;

/// Whether the key has the same in both.
fn is_same_at(one: &Contents, other: &Contents, key: &[u8]) -> bool
    ensures { result ≡ is_same_at one.now other.now key.now }
{
    match (one.get(key), other.get(key)) {
        (None, None) => true,
        (Some(value), Some(its)) => value.as_slice() == its.as_slice(),
        _ => false,
    }
}

/// Whether each of these keys has.
pub fn agree_at(one: &Contents, other: &Contents, items: &[(Key, Value)]) -> bool
    ensures { result ≡ agree_at one.now other.now items.now }
{
    for (key, _) in items {
        if !is_same_at(one, other, key.as_slice()) {
            return false;
        }
    }
    true
}

/// Whether each key of the changes has.
fn agree_by(one: &Contents, other: &Contents, changes: &Changes) -> bool
    ensures { result ≡ agree_by one.now other.now changes.now.entries }
{
    for index in 0..changes.len() {
        let (key, _) = changes.get_index(index).unwrap();
        if !is_same_at(one, other, key.as_slice()) {
            return false;
        }
    }
    true
}

/// Whether each key of the layers has.
pub fn agree_in(one: &Contents, other: &Contents, layers: &[Arc<Changes>]) -> bool
    ensures { result ≡ agree_in one.now other.now (layers_of layers.now) }
{
    for layer in layers {
        if !agree_by(one, other, layer) {
            return false;
        }
    }
    true
}
