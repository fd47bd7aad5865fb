//! Several commands that are all kept or all taken back.

ghost use Rattle.std.specs.Prelude.{◌≡◌, IfOk, OnOk, OnErr, is_some, if◌then◌else◌};
ghost use Rattle.ep_base.specs.Sameness.{is_noop};
ghost use Rattle.ep_base.specs.declared.reply.Reply.TheVariants.{Closed};
ghost use Rattle.ep_base.specs.declared.reply.Answer.TheVariants.{Lost, Replied};
ghost use Rattle.ep_rules.specs.OneMap.{answer, read, written};
ghost use Rattle.ep_exec.specs.Held.{held};
ghost use Rattle.ep_exec.specs.Table.{HavePlaces, first_of, restored};
ghost use Rattle.ep_exec.specs.Tries.{tried};

use crate::changes::copied;
use crate::many::transact;
use crate::store::Store;
use crate::table::{
    Change, Table, compare_noted, exchange, reported, sealed, sweep_all, take_back, value_of, write,
};
use ep_base::{Answer, Command, CommandView, Reply, Value};
use std::alloc::{AllocError, Global};
use std::marker::Model;

/// A map with the commands that were tried on it. They are kept together, or taken back together with no need of memory.
///
/// The time of either is that of what the commands touch, whatever else the map has.
#[derive(Drop)]
pub struct Trial {
    alloc: Global,
    table: Table,
    undo: Vec<(Vec<u8>, Option<Value>)>,
    // the seal at the start, and that of a command since
    before: Option<Value>,
    since: Option<Value>,
}

impl Model for Trial {
    ghost use Rattle.ep_exec.specs.Held.{held};
    ghost use Rattle.ep_exec.specs.Table.{HavePlaces, first_of, restored};
    ghost use Rattle.ep_exec.specs.Tries.{Tried, tried_code};

    ghost Value = { Tried };

    ghost coded = { tried_code };

    ghost view = { λ t. record { start = record { contents = restored t.undo.items (held t.table); seal = t.before }; current = record { contents = held t.table; seal = first_of t.before t.since } } };

    ghost invariant = { λ t. HavePlaces t.table.changes.entries t.undo.items };
}

impl Trial {
    /// No command is tried yet.
    #[tactic(auto, using(crate::proofs::Sealed::first_alone))]
    pub(crate) fn new(alloc: Global, table: Table, seal: Option<Value>) -> Trial
        ensures { result ≡ record { start = record { contents = held table; seal = seal }; current = record { contents = held table; seal = seal } } }
    {
        Trial {
            alloc,
            table,
            undo: Vec::new(alloc),
            before: seal,
            since: None,
        }
    }

    /// Does one more command. A no-op answers lost; any other command's reply says what its key had, of a swap the first one. When out of
    /// memory nothing changes.
    pub fn apply(&mut self, command: &Command) -> Result<Answer, AllocError>
        ensures answer { IfOk result (λ a. a ≡ answer self.old.current command.now) }
        ensures ok { OnOk result (self.new ≡ tried self.old command.now) }
        ensures err { OnErr result (self.new ≡ self.old) }
    {
        if is_closed(&self.before, &self.since) {
            return Ok(closed_answer(command));
        }
        self.table.base.settle_some();
        let seal = sealed(self.alloc, command)?;
        let answer = try_open(self.alloc, &mut self.table, &mut self.undo, command)?;
        self.since = seal;
        Ok(answer)
    }

    /// The map that the commands leave.
    pub fn keep(self) -> Store
        ensures { result ≡ self.current }
    {
        let Trial {
            alloc,
            mut table,
            undo,
            before,
            since,
        } = self;
        sweep_all(&mut table, undo.as_slice());
        Store::with(alloc, table, first(before, since))
    }

    /// The map as it was at the start.
    pub fn take_back(self) -> Store
        ensures { result ≡ self.start }
    {
        let Trial {
            alloc,
            mut table,
            undo,
            before,
            since: _,
        } = self;
        take_back(&mut table, undo);
        Store::with(alloc, table, before)
    }
}

// The first of the two, where there is one, else the other.
fn first(before: Option<Value>, since: Option<Value>) -> Option<Value>
    ensures { result ≡ first_of before since }
{
    match before {
        None => since,
        Some(value) => Some(value),
    }
}

fn is_closed(before: &Option<Value>, since: &Option<Value>) -> bool
    ensures { result ≡ is_some (first_of before.now since.now) }
{
    match before {
        None => since.is_some(),
        Some(_) => true,
    }
}

// What a closed map answers.
fn closed_answer(command: &Command) -> Answer
    ensures { result ≡ (if is_noop command.now then Lost else Replied Closed) }
{
    if command.is_noop() {
        return Answer::Lost;
    }
    Answer::Replied(Reply::Closed)
}

// Does a command on an open map, but for closing it, and notes what it changes.
fn try_open(
    alloc: Global,
    table: &mut Table,
    undo: &mut Vec<(Vec<u8>, Option<Value>)>,
    command: &Command,
) -> Result<Answer, AllocError>
    ensures answer { IfOk result (λ a. a ≡ (if is_noop command.now then Lost else Replied (read (held table.old) command.now))) }
    ensures ok { OnOk result (held table.new ≡ written (held table.old) command.now) }
    ensures err { OnErr result (held table.new ≡ held table.old) }
    ensures undo { restored undo.new.items (held table.new) ≡ restored undo.old.items (held table.old) }
    ensures places { HavePlaces table.old.changes.entries undo.old.items → HavePlaces table.new.changes.entries undo.new.items }
{
    match command.view() {
        CommandView::Noop => Ok(Answer::Lost),
        CommandView::Seal(_) => Ok(Answer::Replied(Reply::Absent)),
        CommandView::Opaque(_, _) => Ok(Answer::Replied(Reply::Ordered)),
        CommandView::Tx(_) => Ok(Answer::Replied(transact(alloc, table, undo, command)?)),
        CommandView::Get(key) => Ok(Answer::Replied(reported(copied(
            alloc,
            value_of(table, key),
        )?))),
        CommandView::Put(key, bytes) => {
            let value = Value::from_valid(alloc, bytes)?;
            let was = write(alloc, table, undo, key, Some(value))?;
            Ok(Answer::Replied(reported(was)))
        }
        CommandView::Del(key) => {
            let was = write(alloc, table, undo, key, None)?;
            Ok(Answer::Replied(reported(was)))
        }
        CommandView::Swap(first, second) => {
            let was = exchange(alloc, table, undo, first, second)?;
            Ok(Answer::Replied(reported(was)))
        }
        CommandView::Cas(key, expected, new) => {
            let change = Change { expected, new };
            let was = compare_noted(alloc, table, undo, key, change)?;
            Ok(Answer::Replied(reported(was)))
        }
    }
}
