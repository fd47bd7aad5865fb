//! Commands over many keys.

ghost use Rattle.std.specs.Prelude.{◌≡◌, ◌≤◌, ◌<◌, ◌+◌, ℕ, List, true, IfOk, OnOk, OnErr, length};
ghost use Rattle.std.specs.Option.{option_copied};
ghost use Rattle.std.specs.Vec.{vec_len, vec_capacity};
ghost use Rattle.ep_base.specs.Interference.{is_many};
ghost use Rattle.ep_base.specs.CommandParts.{IsShort, items_of};
ghost use Rattle.ep_base.specs.Views.{asked};
ghost use Rattle.ep_rules.specs.OneMap.{Contents, value_at, with_key, holds_of, all_hold, reply_values, with_writes, written, read};
ghost use Rattle.ep_exec.specs.Held.{held};
ghost use Rattle.ep_exec.specs.Many.{put_all, AreRoomy};
ghost use Rattle.ep_exec.specs.Table.{HavePlaces, has_place, restored};

use crate::changes::copied;
use crate::table::{Table, has_value, made, make_place, put_back, value_of};
use ep_base::{Command, Items, Reply, ReplyValues, Value};
use std::alloc::{AllocError, Global};

/// A key, with what it is given; and the key once more, to be put back.
#[derive(Drop)]
pub struct Write {
    key: Vec<u8>,
    noted: Vec<u8>,
    value: Option<Value>,
}

/// Whether each guard holds.
fn all_hold(table: &Table, items: Items<'_>) -> bool
    ensures { result ≡ all_hold (held table.now) items.entry }
{
    let mut items = items;
    while let Some(item) = items.next() {
        if !holds(table, item.key, item.guard) {
            return false;
        }
    }
    true
}

// Whether the guard, if there is one, holds of what the key has.
fn holds(table: &Table, key: &[u8], guard: Option<Option<&[u8]>>) -> bool
    ensures { result ≡ holds_of (asked guard.entry) (value_at (held table.now) key.now) }
{
    match guard {
        None => true,
        Some(wanted) => has_value(table, key, wanted),
    }
}

// What each key had whose value is asked for.
fn reply_values(
    alloc: Global,
    table: &Table,
    items: Items<'_>,
) -> Result<Vec<Option<Value>>, AllocError>
    ensures { IfOk result (λ v. v.items ≡ reply_values (held table.now) items.entry) }
{
    let mut items = items;
    let mut values = Vec::new(alloc);
    while let Some(item) = items.next() {
        if item.reported {
            values.push(copied(alloc, value_of(table, item.key))?)?;
        }
    }
    Ok(values)
}

// What the reply reports, whether or not the command writes.
#[tactic(auto, using(crate::proofs::Reporting::few_reported))]
fn reported(alloc: Global, table: &Table, command: &Command) -> Result<ReplyValues, AllocError>
    requires { is_many command.now ≡ true }
    ensures { IfOk result (λ t. t ≡ reply_values (held table.now) (items_of command.now)) }
{
    // (what is asked of its parts says that it is in range)
    let _first = command.first();
    let values = reply_values(alloc, table, command.items())?;
    Ok(ReplyValues::of(values))
}

/// What an open map would reply to a command over many keys.
pub fn reply_many(alloc: Global, table: &Table, command: &Command) -> Result<Reply, AllocError>
    requires { is_many command.now ≡ true }
    ensures { IfOk result (λ r. r ≡ read (held table.now) command.now) }
{
    let reported = reported(alloc, table, command)?;
    if all_hold(table, command.items()) {
        return Ok(Reply::Done(reported));
    }
    Ok(Reply::Undone(reported))
}

/// Does a command over many keys on an open map, and notes what it changes: all memory is taken before a key is written.
pub fn transact(
    alloc: Global,
    table: &mut Table,
    undo: &mut Vec<(Vec<u8>, Option<Value>)>,
    command: &Command,
) -> Result<Reply, AllocError>
    requires { is_many command.now ≡ true }
    ensures reply { IfOk result (λ r. r ≡ read (held table.old) command.now) }
    ensures ok { OnOk result (held table.new ≡ written (held table.old) command.now) }
    ensures err { OnErr result (held table.new ≡ held table.old) }
    ensures undo { restored undo.new.items (held table.new) ≡ restored undo.old.items (held table.old) }
    ensures places { HavePlaces table.old.changes.entries undo.old.items → HavePlaces table.new.changes.entries undo.new.items }
{
    let reported = reported(alloc, table, command)?;
    if !all_hold(table, command.items()) {
        return Ok(Reply::Undone(reported));
    }
    let writes = writes_of(alloc, table, command.items())?;
    undo.reserve(writes.len())?;
    put_all(table, undo, writes);
    Ok(Reply::Done(reported))
}

// What the items write. Each key has a place then.
fn writes_of(alloc: Global, table: &mut Table, items: Items<'_>) -> Result<Vec<Write>, AllocError>
    ensures contents { held table.new ≡ held table.old }
    ensures writes { IfOk result (λ w. (m : Contents) → put_all w.items m ≡ with_writes m items.entry) }
    ensures roomy { IfOk result (λ w. AreRoomy table.new.changes.entries w.items) }
    ensures kept { (q : List ℕ) → has_place table.old.changes.entries q ≡ true → has_place table.new.changes.entries q ≡ true }
{
    let mut items = items;
    let mut writes = Vec::new(alloc);
    while let Some(item) = items.next() {
        if let Some(value) = item.write {
            let write = write_of(alloc, table, item.key, value)?;
            writes.push(write)?;
        }
    }
    Ok(writes)
}

// What is written to a key, which has a place then.
fn write_of(
    alloc: Global,
    table: &mut Table,
    key: &[u8],
    value: Option<&[u8]>,
) -> Result<Write, AllocError>
    requires { IsShort (option_copied value) }
    ensures contents { held table.new ≡ held table.old }
    ensures key { IfOk result (λ w. w.key.items ≡ key.now) }
    ensures noted { IfOk result (λ w. w.noted.items ≡ key.now) }
    ensures value { IfOk result (λ w. w.value ≡ option_copied value.entry) }
    ensures place { OnOk result (has_place table.new.changes.entries key.now ≡ true) }
    ensures kept { (q : List ℕ) → has_place table.old.changes.entries q ≡ true → has_place table.new.changes.entries q ≡ true }
{
    let value = made(alloc, value)?;
    let name = Vec::from_slice(alloc, key)?;
    let noted = Vec::from_slice(alloc, key)?;
    make_place(alloc, table, key)?;
    Ok(Write {
        key: name,
        noted,
        value,
    })
}

// Writes all of them, and notes what each key had. It takes no memory.
fn put_all(table: &mut Table, undo: &mut Vec<(Vec<u8>, Option<Value>)>, writes: Vec<Write>)
    requires places { AreRoomy table.old.changes.entries writes.items }
    requires room { vec_len undo.old + length writes.items ≤ vec_capacity undo.old }
    ensures contents { held table.new ≡ put_all writes.items (held table.old) }
    ensures undo { restored undo.new.items (held table.new) ≡ restored undo.old.items (held table.old) }
    ensures places { HavePlaces table.old.changes.entries undo.old.items → HavePlaces table.new.changes.entries undo.new.items }
{
    for write in writes {
        put_one(table, undo, write);
    }
}

fn put_one(table: &mut Table, undo: &mut Vec<(Vec<u8>, Option<Value>)>, write: Write)
    requires place { has_place table.old.changes.entries write.key.items ≡ true }
    requires same { write.noted.items ≡ write.key.items }
    requires room { vec_len undo.old < vec_capacity undo.old }
    ensures contents { held table.new ≡ with_key (held table.old) write.key.items write.value }
    ensures undo { restored undo.new.items (held table.new) ≡ restored undo.old.items (held table.old) }
    ensures places { HavePlaces table.old.changes.entries undo.old.items → HavePlaces table.new.changes.entries undo.new.items }
    ensures kept { (q : List ℕ) → has_place table.old.changes.entries q ≡ true → has_place table.new.changes.entries q ≡ true }
    ensures len { vec_len undo.new ≡ vec_len undo.old + 1 }
    ensures capacity { vec_capacity undo.new ≡ vec_capacity undo.old }
{
    let Write { key, noted, value } = write;
    let was = put_back(table, key, value);
    undo.push_reserved((noted, was));
}
