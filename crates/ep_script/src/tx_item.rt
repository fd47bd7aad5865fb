//! Items of a command over many keys, as they are read.

ghost use Rattle.std.specs.Prelude.{◌≡◌, ◌≤◌, ◌++◌, ℕ, Some, None, OnOk, MatchBool, is_some, length};
ghost use Rattle.ep_base.specs.CommandParts.{flag, write_flag, flags_of, part_bytes, put_bytes, guard_bytes, write_bytes, item_bytes};
ghost use Rattle.ep_base.specs.Values.{most_value};
ghost use Rattle.ep_script.specs.Clauses.{alone, with_clause};
ghost use Rattle.ep_script.specs.declared.clause.Clause.TheVariants.{Guard, Reported, Write};

use crate::clause::Clause;
use ep_base::{Key, Value};
use std::alloc::AllocError;
use std::marker::Model;

/// What the items of a line `tx` say of one key. Contracts see an item of a command.
#[derive(Drop)]
pub(crate) struct TxItem {
    key: Key,
    guard: Option<Option<Value>>,
    reported: bool,
    write: Option<Option<Value>>,
}

impl Model for TxItem {
    ghost use Rattle.ep_base.specs.Items.{Item};

    ghost Value = { Item };

    ghost view = { λ i. record { key = i.key; guard = i.guard; reported = i.reported; write = i.write } };
}

impl TxItem {
    /// The item that says this alone.
    pub(crate) fn new(key: Key, clause: Clause) -> TxItem
        ensures { result ≡ alone key clause }
    {
        match clause {
            Clause::Guard(wanted) => TxItem {
                key,
                guard: Some(wanted),
                reported: false,
                write: None,
            },
            Clause::Reported => TxItem {
                key,
                guard: None,
                reported: true,
                write: None,
            },
            Clause::Write(given) => TxItem {
                key,
                guard: None,
                reported: false,
                write: Some(given),
            },
        }
    }

    /// The key.
    pub(crate) fn key(&self) -> &[u8]
        ensures { result.now ≡ self.now.key }
    {
        self.key.as_slice()
    }

    /// Adds this to what the item says. False where it says something of the kind, and then nothing has changed.
    pub(crate) fn add(&mut self, clause: Clause) -> bool
        ensures { MatchBool result (with_clause clause self.old ≡ Some self.new) ((with_clause clause self.old ≡ None) × (self.new ≡ self.old)) }
    {
        match clause {
            Clause::Guard(wanted) => self.add_guard(wanted),
            Clause::Reported => self.add_reported(),
            Clause::Write(given) => self.add_write(given),
        }
    }

    fn add_guard(&mut self, wanted: Option<Value>) -> bool
        ensures { MatchBool result (with_clause (Guard wanted) self.old ≡ Some self.new) ((with_clause (Guard wanted) self.old ≡ None) × (self.new ≡ self.old)) }
    {
        if self.guard.is_some() {
            return false;
        }
        self.guard = Some(wanted);
        true
    }

    fn add_reported(&mut self) -> bool
        ensures { MatchBool result (with_clause Reported self.old ≡ Some self.new) ((with_clause Reported self.old ≡ None) × (self.new ≡ self.old)) }
    {
        if self.reported {
            return false;
        }
        self.reported = true;
        true
    }

    fn add_write(&mut self, given: Option<Value>) -> bool
        ensures { MatchBool result (with_clause (Write given) self.old ≡ Some self.new) ((with_clause (Write given) self.old ≡ None) × (self.new ≡ self.old)) }
    {
        if self.write.is_some() {
            return false;
        }
        self.write = Some(given);
        true
    }

    /// Appends the item as it stands in a command's body. At an `Err` a part of it may be there.
    pub(crate) fn push_bytes(&self, body: &mut Vec<u8>) -> Result<(), AllocError>
        ensures { OnOk result (body.new.items ≡ body.old.items ++ item_bytes self.now) }
    {
        let key = self.key.as_slice();
        let head = [key.len() as u8, self.flags()];
        body.extend_from_slice(&head)?;
        body.extend_from_slice(key)?;
        push_guard(body, &self.guard)?;
        push_write(body, &self.write)
    }

    fn flags(&self) -> u8
        ensures { result ≡ flags_of self.now }
    {
        flag(1, self.reported) + flag(2, self.guard.is_some()) + write_flag(&self.write)
    }
}

fn flag(number: u8, is_set: bool) -> u8
    ensures value { result ≡ flag number is_set }
    ensures bound { result ≤ number }
{
    if is_set { number } else { 0 }
}

fn write_flag(write: &Option<Option<Value>>) -> u8
    ensures value { result ≡ write_flag write.now }
    ensures bound { result ≤ 8 }
{
    match write {
        None => 0,
        Some(None) => 8,
        Some(Some(_)) => 4,
    }
}

fn push_guard(body: &mut Vec<u8>, guard: &Option<Option<Value>>) -> Result<(), AllocError>
    ensures { OnOk result (body.new.items ≡ body.old.items ++ guard_bytes guard.now) }
{
    match guard {
        None => Ok(()),
        Some(None) => body.extend_from_slice(&[0]),
        Some(Some(value)) => {
            body.push(1)?;
            push_put(body, value)
        }
    }
}

fn push_write(body: &mut Vec<u8>, write: &Option<Option<Value>>) -> Result<(), AllocError>
    ensures { OnOk result (body.new.items ≡ body.old.items ++ write_bytes write.now) }
{
    match write {
        None => Ok(()),
        Some(None) => Ok(()),
        Some(Some(value)) => push_put(body, value),
    }
}

/// Appends a value, with its length before it.
fn push_put(body: &mut Vec<u8>, value: &Value) -> Result<(), AllocError>
    ensures { OnOk result (body.new.items ≡ body.old.items ++ put_bytes value.now) }
{
    let bytes = value.as_slice();
    let len = bytes.len();
    let head = [0, 0, (len / 256) as u8, (len % 256) as u8];
    body.extend_from_slice(&head)?;
    body.extend_from_slice(bytes)
}
