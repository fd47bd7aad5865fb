//! Changes of a map.

ghost use Rattle.std.specs.Prelude.{◌≡◌, IfOk, OnOk};
ghost use Rattle.std.specs.Option.{option_copied};
ghost use Rattle.ep_rules.specs.OneMap.{Contents, with_key};
ghost use Rattle.ep_exec.specs.Table.{over};

use ep_base::Value;
use indexmap::IndexMap;
use std::alloc::{AllocError, Global};

/// Keys that were written, each with its value, or with none.
pub type Changes = IndexMap<Vec<u8>, Option<Value>>;

/// A value again.
pub fn copied(alloc: Global, found: Option<&Value>) -> Result<Option<Value>, AllocError>
    ensures { IfOk result (λ v. v ≡ option_copied found.entry) }
{
    match found {
        Some(value) => Ok(Some(value.copy(alloc)?)),
        None => Ok(None),
    }
}

/// Gives the key this value, or none; what it had is let go.
fn put(changes: &mut Changes, key: Vec<u8>, value: Option<Value>) -> Result<(), AllocError>
    ensures { OnOk result ((m : Contents) → over m changes.new.entries ≡ with_key (over m changes.old.entries) key.items value) }
{
    match changes.insert(key, value) {
        Ok(_was) => Ok(()),
        Err(_) => Err(AllocError),
    }
}

/// Gives the key this value again, or none.
fn add(
    alloc: Global,
    changes: &mut Changes,
    key: &[u8],
    value: Option<&Value>,
) -> Result<(), AllocError>
    ensures { OnOk result ((m : Contents) → over m changes.new.entries ≡ with_key (over m changes.old.entries) key.now (option_copied value.entry)) }
{
    let name = Vec::from_slice(alloc, key)?;
    let value = copied(alloc, value)?;
    match changes.insert(name, value) {
        Ok(_was) => Ok(()),
        Err(_) => Err(AllocError),
    }
}

/// The same changes again.
pub fn copy_changes(alloc: Global, changes: &Changes) -> Result<Changes, AllocError>
    ensures { IfOk result (λ c. (m : Contents) → over m c.entries ≡ over m changes.now.entries) }
{
    let mut copy = IndexMap::new(alloc);
    for index in (0..changes.len()).rev() {
        let (key, value) = changes.get_index(index).unwrap();
        add(alloc, &mut copy, key.as_slice(), value.as_ref())?;
    }
    Ok(copy)
}

/// The newer changes over these.
pub fn put_over(older: Changes, newer: Changes) -> Result<Changes, AllocError>
    ensures { IfOk result (λ c. (m : Contents) → over m c.entries ≡ over (over m older.entries) newer.entries) }
{
    let mut all = older;
    let mut newer = newer;
    while let Some((key, value)) = newer.pop() {
        put(&mut all, key, value)?;
    }
    Ok(all)
}
