//! The table behind a map: keys that were written, each with a value or with none, over contents that stay as they are.

ghost use Rattle.std.specs.Prelude.{◌≡◌, ℕ, List, None, true, false, IfOk, OnOk, OnErr};
ghost use Rattle.std.specs.Map.{lookup};
ghost use Rattle.std.specs.Option.{option_copied, option_flatten};
ghost use Rattle.ep_base.specs.Commands.{Swap, Cas};
ghost use Rattle.ep_base.specs.Interference.{is_many};
ghost use Rattle.ep_base.specs.CommandParts.{IsShort};
ghost use Rattle.ep_rules.specs.OneMap.{Contents, value_at, with_key, written, read, reported, sealed_by};
ghost use Rattle.ep_space.specs.Index.{is_at};
ghost use Rattle.ep_base.specs.Sameness.{same_option};
ghost use Rattle.ep_exec.specs.Held.{held};
ghost use Rattle.ep_exec.specs.Table.{HavePlaces, has_place, over, restored};

use crate::changes::{Changes, copied, copy_changes};
use crate::contents::Contents;
use crate::many::{reply_many, transact};
use ep_base::{Command, CommandView, Key, Reply, Value};
use indexmap::IndexMap;
use std::alloc::{AllocError, Global};

/// What keys have: what the changes say, and of other keys what the contents say with which the map began. These are shared, and stay as they are.
#[derive(Drop)]
pub struct Table {
    pub base: Contents,
    pub changes: Changes,
}

/// Lets a value go.
fn done<T: Drop>(_value: T) {}

/// What the key has.
pub fn value_of<'a>(table: &'a Table, key: &[u8]) -> Option<&'a Value>
    ensures { option_copied result ≡ value_at (held table.now) key.now }
{
    match table.changes.get(key) {
        Some(value) => value.as_ref(),
        None => table.base.get(key),
    }
}

/// What the contents say of a key that has no place among the changes, as a copy; none of one that has. A key that has a place needs no memory.
fn below(alloc: Global, table: &Table, key: &[u8]) -> Result<Option<Value>, AllocError>
    ensures none { IfOk result (λ was. lookup (is_at key.now) table.now.changes.entries ≡ None → was ≡ value_at table.now.base key.now) }
    ensures absent { OnErr result (has_place table.now.changes.entries key.now ≡ false) }
{
    if table.base.is_bare() {
        return Ok(None);
    }
    if table.changes.contains_key(key) {
        return Ok(None);
    }
    copied(alloc, table.base.get(key))
}

/// Sets what the key has, and gives what it had. A key that has a place needs no memory.
pub fn set(
    alloc: Global,
    table: &mut Table,
    key: Vec<u8>,
    value: Option<Value>,
) -> Result<Option<Value>, AllocError>
    ensures was { IfOk result (λ was. was ≡ value_at (held table.old) key.items) }
    ensures ok { OnOk result (held table.new ≡ with_key (held table.old) key.items value) }
    ensures base { table.new.base ≡ table.old.base }
    ensures err { OnErr result (table.new.changes.entries ≡ table.old.changes.entries) }
    ensures place { OnOk result (has_place table.new.changes.entries key.items ≡ true) }
    ensures places { (q : List ℕ) → has_place table.old.changes.entries q ≡ true → has_place table.new.changes.entries q ≡ true }
    ensures absent { OnErr result (has_place table.old.changes.entries key.items ≡ false) }
{
    let shared = below(alloc, table, key.as_slice())?;
    match table.changes.insert(key, value) {
        Ok(Some(was)) => {
            done(shared);
            Ok(was)
        }
        Ok(None) => Ok(shared),
        Err(_) => Err(AllocError),
    }
}

/// Takes a key's place away of which the contents say nothing, and gives what it had.
fn remove(table: &mut Table, key: &[u8]) -> Option<Value>
    requires { value_at table.old.base key.now ≡ None }
    ensures was { result ≡ value_at (held table.old) key.now }
    ensures removed { held table.new ≡ with_key (held table.old) key.now None }
    ensures base { table.new.base ≡ table.old.base }
{
    table.changes.swap_remove(key).flatten()
}

/// Takes the key's value away, and gives it.
fn clear(alloc: Global, table: &mut Table, key: &[u8]) -> Result<Option<Value>, AllocError>
    ensures was { IfOk result (λ was. was ≡ value_at (held table.old) key.now) }
    ensures ok { OnOk result (held table.new ≡ with_key (held table.old) key.now None) }
    ensures err { OnErr result (held table.new ≡ held table.old) }
{
    if table.base.get(key).is_none() {
        return Ok(remove(table, key));
    }
    let name = Vec::from_slice(alloc, key)?;
    set(alloc, table, name, None)
}

/// What a reply says of a key.
pub fn reported(value: Option<Value>) -> Reply
    ensures { result ≡ reported value }
{
    match value {
        Some(value) => Reply::Present(value),
        None => Reply::Absent,
    }
}

/// The same table again, over the same contents in memory.
pub fn copy(alloc: Global, table: &Table) -> Result<Table, AllocError>
    ensures { IfOk result (λ t. held t ≡ held table.now) }
{
    let base = table.base.copy(alloc)?;
    let changes = copy_changes(alloc, &table.changes)?;
    Ok(Table { base, changes })
}

/// No change yet of these contents.
pub fn unchanged(alloc: Global, base: Contents) -> Table
    ensures { held result ≡ base }
{
    Table {
        base,
        changes: IndexMap::new(alloc),
    }
}

/// Makes a place for the key.
pub fn make_place(alloc: Global, table: &mut Table, key: &[u8]) -> Result<(), AllocError>
    ensures contents { held table.new ≡ held table.old }
    ensures place { OnOk result (has_place table.new.changes.entries key.now ≡ true) }
    ensures places { (q : List ℕ) → has_place table.old.changes.entries q ≡ true → has_place table.new.changes.entries q ≡ true }
{
    if table.changes.contains_key(key) {
        return Ok(());
    }
    let name = Vec::from_slice(alloc, key)?;
    let value = copied(alloc, value_of(table, key))?;
    done(set(alloc, table, name, value)?);
    Ok(())
}

/// Takes the key's place away, if it has no value, and the contents say nothing of it.
pub fn sweep(table: &mut Table, key: &[u8])
    ensures { held table.new ≡ held table.old }
{
    if table.base.get(key).is_none() {
        sweep_own(table, key);
    }
}

/// Takes the place away of a key of which the contents say nothing, if it has no value.
fn sweep_own(table: &mut Table, key: &[u8])
    requires { value_at table.old.base key.now ≡ None }
    ensures { held table.new ≡ held table.old }
{
    if value_of(table, key).is_none() {
        done(remove(table, key));
    }
}

/// Sets what a key has that has a place.
pub fn put_back(table: &mut Table, key: Vec<u8>, value: Option<Value>) -> Option<Value>
    requires { has_place table.old.changes.entries key.items ≡ true }
    ensures was { result ≡ value_at (held table.old) key.items }
    ensures contents { held table.new ≡ with_key (held table.old) key.items value }
    ensures places { (q : List ℕ) → has_place table.old.changes.entries q ≡ true → has_place table.new.changes.entries q ≡ true }
{
    match table.changes.insert(key, value) {
        Ok(was) => was.flatten(),
        Err(_) => unreachable!(),
    }
}

/// Makes a place for both keys.
fn make_places(
    alloc: Global,
    table: &mut Table,
    first: &[u8],
    second: &[u8],
) -> Result<(), AllocError>
    ensures contents { held table.new ≡ held table.old }
    ensures first { OnOk result (has_place table.new.changes.entries first.now ≡ true) }
    ensures second { OnOk result (has_place table.new.changes.entries second.now ≡ true) }
{
    make_place(alloc, table, first)?;
    make_place(alloc, table, second)
}

/// Sets what two keys have that have places, and gives what the first one had.
fn put_both(
    table: &mut Table,
    first: Vec<u8>,
    value: Option<Value>,
    second: Vec<u8>,
    other: Option<Value>,
) -> Option<Value>
    requires first { has_place table.old.changes.entries first.items ≡ true }
    requires second { has_place table.old.changes.entries second.items ≡ true }
    ensures was { result ≡ value_at (held table.old) first.items }
    ensures contents { held table.new ≡ with_key (with_key (held table.old) first.items value) second.items other }
    ensures places { (q : List ℕ) → has_place table.old.changes.entries q ≡ true → has_place table.new.changes.entries q ≡ true }
{
    let was = put_back(table, first, value);
    done(put_back(table, second, other));
    was
}

/// Exchanges what two keys have, and gives what the first one had. Both places are made, and all memory is taken, before either key is
/// written.
pub fn swap(
    alloc: Global,
    table: &mut Table,
    first: &[u8],
    second: &[u8],
) -> Result<Option<Value>, AllocError>
    ensures was { IfOk result (λ was. was ≡ value_at (held table.old) first.now) }
    ensures ok { OnOk result (held table.new ≡ written (held table.old) (Swap (record { first = first.now; second = second.now }))) }
    ensures err { OnErr result (held table.new ≡ held table.old) }
{
    let own = copied(alloc, value_of(table, first))?;
    let other = copied(alloc, value_of(table, second))?;
    let name = Vec::from_slice(alloc, first)?;
    let other_name = Vec::from_slice(alloc, second)?;
    make_places(alloc, table, first, second)?;
    let was = put_both(table, name, other, other_name, own);
    sweep(table, first);
    sweep(table, second);
    Ok(was)
}

/// Whether the key has this value, or none.
pub fn has_value(table: &Table, key: &[u8], expected: Option<&[u8]>) -> bool
    ensures { result ≡ same_option (value_at (held table.now) key.now) (option_copied expected.entry) }
{
    match (value_of(table, key), expected) {
        (None, None) => true,
        (Some(value), Some(expected)) => value.as_slice() == expected,
        _ => false,
    }
}

/// A new value of these bytes, or none again.
pub fn made(alloc: Global, bytes: Option<&[u8]>) -> Result<Option<Value>, AllocError>
    requires { IsShort (option_copied bytes) }
    ensures { IfOk result (λ v. v ≡ option_copied bytes.entry) }
{
    match bytes {
        None => Ok(None),
        Some(bytes) => Ok(Some(Value::from_valid(alloc, bytes)?)),
    }
}

/// Gives the key what is new where it has what is expected, and gives what it had.
pub fn compare(
    alloc: Global,
    table: &mut Table,
    key: &[u8],
    expected: Option<&[u8]>,
    new: Option<&[u8]>,
) -> Result<Option<Value>, AllocError>
    requires { IsShort (option_copied new) }
    ensures was { IfOk result (λ was. was ≡ value_at (held table.old) key.now) }
    ensures ok { OnOk result (held table.new ≡ written (held table.old) (Cas key.now (option_copied expected.entry) (option_copied new.entry))) }
    ensures err { OnErr result (held table.new ≡ held table.old) }
{
    if !has_value(table, key, expected) {
        return copied(alloc, value_of(table, key));
    }
    match new {
        None => clear(alloc, table, key),
        Some(bytes) => {
            let name = Vec::from_slice(alloc, key)?;
            let value = Value::from_valid(alloc, bytes)?;
            set(alloc, table, name, Some(value))
        }
    }
}

/// Does a command over many keys on an open map.
fn transact_open(alloc: Global, table: &mut Table, command: &Command) -> Result<Reply, AllocError>
    requires { is_many command.now ≡ true }
    ensures reply { IfOk result (λ r. r ≡ read (held table.old) command.now) }
    ensures ok { OnOk result (held table.new ≡ written (held table.old) command.now) }
    ensures err { OnErr result (held table.new ≡ held table.old) }
{
    let mut undo = Vec::new(alloc);
    let reply = transact(alloc, table, &mut undo, command)?;
    sweep_all(table, undo.as_slice());
    Ok(reply)
}

/// What an open map would reply to the command.
pub fn reply_open(alloc: Global, table: &Table, command: &Command) -> Result<Reply, AllocError>
    ensures { IfOk result (λ r. r ≡ read (held table.now) command.now) }
{
    match command.view() {
        CommandView::Noop | CommandView::Seal(_) => Ok(Reply::Absent),
        CommandView::Opaque(_, _) => Ok(Reply::Ordered),
        CommandView::Tx(_) => reply_many(alloc, table, command),
        CommandView::Get(key)
        | CommandView::Put(key, _)
        | CommandView::Del(key)
        | CommandView::Swap(key, _)
        | CommandView::Cas(key, _, _) => Ok(reported(copied(alloc, value_of(table, key))?)),
    }
}

/// Does a command on an open map, but for closing it: a no-op and a seal change nothing.
pub fn apply_open(alloc: Global, table: &mut Table, command: &Command) -> Result<Reply, AllocError>
    ensures reply { IfOk result (λ r. r ≡ read (held table.old) command.now) }
    ensures ok { OnOk result (held table.new ≡ written (held table.old) command.now) }
    ensures err { OnErr result (held table.new ≡ held table.old) }
{
    match command.view() {
        CommandView::Noop | CommandView::Seal(_) => Ok(Reply::Absent),
        CommandView::Opaque(_, _) => Ok(Reply::Ordered),
        CommandView::Tx(_) => transact_open(alloc, table, command),
        CommandView::Get(key) => Ok(reported(copied(alloc, value_of(table, key))?)),
        CommandView::Put(key, bytes) => {
            let name = Vec::from_slice(alloc, key)?;
            let value = Value::from_valid(alloc, bytes)?;
            Ok(reported(set(alloc, table, name, Some(value))?))
        }
        CommandView::Del(key) => Ok(reported(clear(alloc, table, key)?)),
        CommandView::Swap(first, second) => Ok(reported(swap(alloc, table, first, second)?)),
        CommandView::Cas(key, expected, new) => {
            Ok(reported(compare(alloc, table, key, expected, new)?))
        }
    }
}

/// The value of a seal; none of another command.
pub fn sealed(alloc: Global, command: &Command) -> Result<Option<Value>, AllocError>
    ensures { IfOk result (λ v. v ≡ sealed_by command.now) }
{
    match command.view() {
        CommandView::Seal(bytes) => Ok(Some(Value::from_valid(alloc, bytes)?)),
        CommandView::Noop
        | CommandView::Get(_)
        | CommandView::Put(_, _)
        | CommandView::Del(_)
        | CommandView::Swap(_, _)
        | CommandView::Cas(_, _, _)
        | CommandView::Opaque(_, _)
        | CommandView::Tx(_) => Ok(None),
    }
}

/// Makes a place for the key, and notes what it has to be put back: the key again, with which `put_back` writes.
pub fn note(
    alloc: Global,
    table: &mut Table,
    undo: &mut Vec<(Vec<u8>, Option<Value>)>,
    key: &[u8],
) -> Result<Vec<u8>, AllocError>
    ensures name { IfOk result (λ name. name.items ≡ key.now) }
    ensures place { OnOk result (has_place table.new.changes.entries key.now ≡ true) }
    ensures contents { held table.new ≡ held table.old }
    ensures kept { (q : List ℕ) → has_place table.old.changes.entries q ≡ true → has_place table.new.changes.entries q ≡ true }
    ensures undo { OnOk result ((m : Contents) → restored undo.new.items m ≡ restored undo.old.items (with_key m key.now (value_at (held table.old) key.now))) }
    ensures err { OnErr result (undo.new.items ≡ undo.old.items) }
    ensures places { HavePlaces table.old.changes.entries undo.old.items → HavePlaces table.new.changes.entries undo.new.items }
{
    make_place(alloc, table, key)?;
    let was = copied(alloc, value_of(table, key))?;
    let name = Vec::from_slice(alloc, key)?;
    let noted = Vec::from_slice(alloc, key)?;
    undo.push((noted, was))?;
    Ok(name)
}

/// Sets what the key has, gives what it had, and notes it to be put back.
pub fn write(
    alloc: Global,
    table: &mut Table,
    undo: &mut Vec<(Vec<u8>, Option<Value>)>,
    key: &[u8],
    value: Option<Value>,
) -> Result<Option<Value>, AllocError>
    ensures was { IfOk result (λ was. was ≡ value_at (held table.old) key.now) }
    ensures ok { OnOk result (held table.new ≡ with_key (held table.old) key.now value) }
    ensures err { OnErr result (held table.new ≡ held table.old) }
    ensures undo { restored undo.new.items (held table.new) ≡ restored undo.old.items (held table.old) }
    ensures places { HavePlaces table.old.changes.entries undo.old.items → HavePlaces table.new.changes.entries undo.new.items }
{
    let name = note(alloc, table, undo, key)?;
    Ok(put_back(table, name, value))
}

/// Exchanges what two keys have, gives what the first one had, and notes both to be put back. Both places are made, and all memory is
/// taken, before either key is written.
pub fn exchange(
    alloc: Global,
    table: &mut Table,
    undo: &mut Vec<(Vec<u8>, Option<Value>)>,
    first: &[u8],
    second: &[u8],
) -> Result<Option<Value>, AllocError>
    ensures was { IfOk result (λ was. was ≡ value_at (held table.old) first.now) }
    ensures ok { OnOk result (held table.new ≡ written (held table.old) (Swap (record { first = first.now; second = second.now }))) }
    ensures err { OnErr result (held table.new ≡ held table.old) }
    ensures undo { restored undo.new.items (held table.new) ≡ restored undo.old.items (held table.old) }
    ensures places { HavePlaces table.old.changes.entries undo.old.items → HavePlaces table.new.changes.entries undo.new.items }
{
    let own = copied(alloc, value_of(table, first))?;
    let other = copied(alloc, value_of(table, second))?;
    let name = note(alloc, table, undo, first)?;
    let other_name = note(alloc, table, undo, second)?;
    Ok(put_both(table, name, other, other_name, own))
}

/// What a key is to have, where it has what is expected.
#[derive(Clone, Copy)]
pub struct Change<'a> {
    pub expected: Option<&'a [u8]>,
    pub new: Option<&'a [u8]>,
}

/// The same as `compare`, and notes what is changed to be put back.
pub fn compare_noted(
    alloc: Global,
    table: &mut Table,
    undo: &mut Vec<(Vec<u8>, Option<Value>)>,
    key: &[u8],
    change: Change<'_>,
) -> Result<Option<Value>, AllocError>
    requires { IsShort (option_copied change.new) }
    ensures was { IfOk result (λ was. was ≡ value_at (held table.old) key.now) }
    ensures ok { OnOk result (held table.new ≡ written (held table.old) (Cas key.now (option_copied change.entry.expected) (option_copied change.entry.new))) }
    ensures err { OnErr result (held table.new ≡ held table.old) }
    ensures undo { restored undo.new.items (held table.new) ≡ restored undo.old.items (held table.old) }
    ensures places { HavePlaces table.old.changes.entries undo.old.items → HavePlaces table.new.changes.entries undo.new.items }
{
    if !has_value(table, key, change.expected) {
        return copied(alloc, value_of(table, key));
    }
    let value = made(alloc, change.new)?;
    write(alloc, table, undo, key, value)
}

/// Takes all that is noted back, the last change first.
pub fn take_back(table: &mut Table, undo: Vec<(Vec<u8>, Option<Value>)>)
    requires { HavePlaces table.old.changes.entries undo.items }
    ensures { held table.new ≡ restored undo.items (held table.old) }
{
    let mut undo = undo;
    while let Some((key, was)) = undo.pop() {
        done(put_back(table, key, was));
    }
}

/// Takes the places away that were made for these keys and have no value.
pub fn sweep_all(table: &mut Table, undo: &[(Vec<u8>, Option<Value>)])
    ensures { held table.new ≡ held table.old }
{
    for (key, _) in undo {
        sweep(table, key.as_slice());
    }
}
