//! Changes of several layers are brought into order, some at a time.

ghost use Rattle.std.specs.Prelude.{◌≡◌, ◌<◌, ◌∷◌, List, drop, IfOk, OnOk, OnErr};
ghost use Rattle.std.specs.Option.{option_copied};
ghost use Rattle.ep_rules.specs.OneMap.{Contents, with_key};
ghost use Rattle.ep_exec.specs.Layers.{layers_of, stacked};
ghost use Rattle.ep_exec.specs.Settling.{first_len, with_rest, IsGathering};
ghost use Rattle.ep_exec.specs.Table.{Entry, over};

use crate::changes::{Changes, copied};
use crate::merging::Tree;
use ep_base::Value;
use std::alloc::{AllocError, Global};
use std::collections::BTreeMap;
use std::sync::Arc;

/// Layers whose changes are copied into a tree, the oldest first, from the last change of each on.
#[derive(Drop)]
pub struct Gathering {
    pub tree: Tree,
    /// So many layers are in the tree,
    pub done: usize,
    /// and of the next one so many changes aren't.
    pub left: usize,
}

/// How many changes the layer in this place has.
fn len_at(layers: &[Arc<Changes>], place: usize) -> usize
    ensures { result ≡ first_len (drop place (layers_of layers.now)) }
{
    match layers.get(place) {
        None => 0,
        Some(layer) => layer.len(),
    }
}

impl Gathering {
    /// None of these layers is in this tree.
    pub fn new(tree: Tree, layers: &[Arc<Changes>]) -> Gathering
        ensures { IsGathering tree.entries (layers_of layers.now) result }
    {
        Gathering {
            tree,
            done: 0,
            left: len_at(layers, 0),
        }
    }
}

/// Gives the key this value again, or none. As it was at an `Err`.
fn put_again(
    alloc: Global,
    tree: &mut Tree,
    key: &[u8],
    value: Option<&Value>,
) -> Result<(), AllocError>
    ensures ok { OnOk result ((m : Contents) → over m tree.new.entries ≡ with_key (over m tree.old.entries) key.now (option_copied value.entry)) }
    ensures err { OnErr result (tree.new.entries ≡ tree.old.entries) }
{
    let name = Vec::from_slice(alloc, key)?;
    let value = copied(alloc, value)?;
    match tree.insert(name, value) {
        Ok(_was) => Ok(()),
        Err(_) => Err(AllocError),
    }
}

/// Takes the last change of the layer that isn't taken: whether it did.
fn take_one(alloc: Global, gathering: &mut Gathering, layer: &Changes) -> bool
    requires { 0 < gathering.old.left }
    ensures keeps { (m w : Contents) (ls : List (List Entry)) → with_rest (over m gathering.old.tree.entries) gathering.old.left (layer.now.entries ∷ ls) ≡ w → with_rest (over m gathering.new.tree.entries) gathering.new.left (layer.now.entries ∷ ls) ≡ w }
    ensures done { gathering.new.done ≡ gathering.old.done }
{
    let Some((key, value)) = layer.get_index(gathering.left - 1) else {
        return false;
    };
    match put_again(alloc, &mut gathering.tree, key.as_slice(), value.as_ref()) {
        Ok(()) => {
            gathering.left -= 1;
            true
        }
        Err(_) => false,
    }
}

/// Takes one more change, or goes on to the next layer: whether it did.
fn gather_one(alloc: Global, gathering: &mut Gathering, layers: &[Arc<Changes>]) -> bool
    ensures { (since : List Entry) → IsGathering since (layers_of layers.now) gathering.old → IsGathering since (layers_of layers.now) gathering.new }
{
    let Some(layer) = layers.get(gathering.done) else {
        return false;
    };
    if gathering.left == 0 {
        gathering.done += 1;
        gathering.left = len_at(layers, gathering.done);
        return true;
    }
    take_one(alloc, gathering, layer)
}

/// Takes at most so many changes; fewer where all are taken, or memory is refused.
pub fn gathered_on(
    alloc: Global,
    gathering: Gathering,
    layers: &[Arc<Changes>],
    most: usize,
) -> Gathering
    ensures { (since : List Entry) → IsGathering since (layers_of layers.now) gathering → IsGathering since (layers_of layers.now) result }
{
    let mut gathering = gathering;
    let mut left = most;
    while left > 0 {
        left = if gather_one(alloc, &mut gathering, layers) {
            left - 1
        } else {
            0
        };
    }
    gathering
}

/// All of these layers' changes over those of the tree.
pub fn all_in_order(alloc: Global, tree: Tree, layers: &[Arc<Changes>]) -> Result<Tree, AllocError>
    ensures { IfOk result (λ t. (m : Contents) → over m t.entries ≡ stacked (over m tree.entries) (layers_of layers.now)) }
{
    let gathering = Gathering::new(tree, layers);
    let gathering = gathered_on(alloc, gathering, layers, usize::MAX);
    let Gathering {
        tree,
        done,
        left: _,
    } = gathering;
    if done < layers.len() {
        drop(tree);
        return Err(AllocError);
    }
    Ok(tree)
}
