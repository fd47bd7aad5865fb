//! One map of bytes.

ghost use Rattle.std.specs.Prelude.{◌≡◌, ℕ, false, IfOk, IfErr, OnOk, OnErr, not, is_none};
ghost use Rattle.std.specs.FinMap.{entries};
ghost use Rattle.std.specs.Option.{option_copied};
ghost use Rattle.ep_base.specs.Sameness.{is_noop};
ghost use Rattle.ep_rules.specs.OneMap.{empty, opened, value_at, after, reply};
ghost use Rattle.ep_exec.specs.Sorting.{IsBad};
ghost use Rattle.ep_exec.specs.Held.{held};

use crate::contents::Contents;
use crate::contents_fault::ContentsFault;
use crate::table::{self, Table, apply_open, reply_open, sealed, unchanged, value_of};
use crate::trial::Trial;
use ep_base::{Command, Key, Reply, Value};
use std::alloc::{AllocError, Global};
use std::marker::Model;

/// A map from keys to values, which a seal closes.
#[derive(Drop)]
pub struct Store {
    alloc: Global,
    table: Table,
    seal: Option<Value>,
}

impl Model for Store {
    ghost use Rattle.ep_rules.specs.OneMap as one_map;
    ghost use Rattle.ep_exec.specs.Held.{held};
    ghost use Rattle.ep_exec.specs.Table.{store_code};

    ghost Value = { one_map.Store };

    ghost coded = { store_code };

    ghost view = { λ s. record { contents = held s.table; seal = s.seal } };
}

impl Store {
    /// The map in which no key has a value.
    pub fn new(alloc: Global) -> Store
        ensures { result ≡ opened empty }
    {
        Store {
            alloc,
            table: unchanged(alloc, Contents::new(alloc)),
            seal: None,
        }
    }

    /// The open map with these contents, which it shares: it takes the same time and memory however many keys there are.
    pub fn opened(alloc: Global, contents: &Contents) -> Result<Store, AllocError>
        ensures { IfOk result (λ s. s ≡ opened contents.now) }
    {
        let base = contents.copy(alloc)?;
        Ok(Store {
            alloc,
            table: unchanged(alloc, base),
            seal: None,
        })
    }

    /// The same map, which goes on with what was done of putting layers into the listing of these contents (see
    /// `Contents::hand_on`).
    pub fn carry_on(&mut self, contents: Contents)
        requires { self.old ≡ opened contents }
        ensures { self.new ≡ self.old }
    {
        let alloc = self.alloc;
        *self = Store {
            alloc,
            table: unchanged(alloc, contents),
            seal: None,
        };
    }

    /// What the key has.
    pub fn get(&self, key: &Key) -> Option<&Value>
        ensures { option_copied result ≡ value_at self.now.contents key.now }
    {
        value_of(&self.table, key.as_slice())
    }

    /// Does a command other than a no-op: the reply says what its key had, of a swap the first one. A closed map says so and stays as it is.
    /// When out of memory, the map stays as it was.
    pub fn apply(&mut self, command: &Command) -> Result<Reply, AllocError>
        requires { is_noop command.now ≡ false }
        ensures reply { IfOk result (λ r. r ≡ reply self.old command.now) }
        ensures ok { OnOk result (self.new ≡ after self.old command.now) }
        ensures err { OnErr result (self.new ≡ self.old) }
    {
        if self.seal.is_some() {
            return Ok(Reply::Closed);
        }
        self.table.base.settle_some();
        let seal = sealed(self.alloc, command)?;
        let reply = apply_open(self.alloc, &mut self.table, command)?;
        self.seal = seal;
        Ok(reply)
    }

    /// What the map would reply to the command, of which nothing is done.
    pub fn reply(&self, command: &Command) -> Result<Reply, AllocError>
        requires { is_noop command.now ≡ false }
        ensures { IfOk result (λ r. r ≡ reply self.now command.now) }
    {
        match &self.seal {
            Some(_) => Ok(Reply::Closed),
            None => reply_open(self.alloc, &self.table, command),
        }
    }

    /// The value of the seal that closed the map, if one did.
    pub fn seal(&self) -> Option<&Value>
        ensures { option_copied result ≡ self.now.seal }
    {
        self.seal.as_ref()
    }

    /// What the keys have: a copy of the changes, over what the map began with. `OutOfRange` where a key isn't of 1
    /// to 255 bytes, as each command's are.
    pub fn contents(&self) -> Result<Contents, ContentsFault>
        ensures ok { IfOk result (λ c. c ≡ self.now.contents) }
        ensures refused { IfErr result (λ fault. IsBad (entries self.now.contents) fault) }
    {
        let copy = self.copy()?;
        copy.into_contents()
    }

    /// The same, of which the map becomes a part: it takes the time of the changes, however many keys there are (see
    /// `Contents`).
    pub fn into_contents(self) -> Result<Contents, ContentsFault>
        ensures ok { IfOk result (λ c. c ≡ self.contents) }
        ensures refused { IfErr result (λ fault. IsBad (entries self.contents) fault) }
    {
        let Store {
            alloc: _,
            table,
            seal,
        } = self;
        drop(seal);
        let Table { base, changes } = table;
        base.changed(changes)
    }

    /// The same map again.
    pub fn copy(&self) -> Result<Store, AllocError>
        ensures { IfOk result (λ s. s ≡ self.now) }
    {
        let table = table::copy(self.alloc, &self.table)?;
        let seal = Value::copy_option(&self.seal, self.alloc)?;
        Ok(Store {
            alloc: self.alloc,
            table,
            seal,
        })
    }

    /// Begins to try commands on the map.
    pub fn try_out(self) -> Trial
        ensures { result ≡ record { start = self; current = self } }
    {
        Trial::new(self.alloc, self.table, self.seal)
    }

    /// The map of a table, closed by this seal, if one is given.
    pub(crate) fn with(alloc: Global, table: Table, seal: Option<Value>) -> Store
        ensures { result ≡ record { contents = held table; seal = seal } }
    {
        Store { alloc, table, seal }
    }
}
