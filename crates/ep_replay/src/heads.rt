//! What the head of a script says, as a world has it.

ghost use Rattle.std.specs.Prelude.{◌≡◌, ◌≤◌, [], ℕ, IfOk, OnOk};
ghost use Rattle.ep_base.specs.Versions.{version_number};
ghost use Rattle.std.specs.FinMap.{from_entries};
ghost use Rattle.ep_base.specs.Commands.{Put};
ghost use Rattle.ep_rules.specs.OneMap.{after};
ghost use Rattle.ep_world.specs.Played.{entries_in};
ghost use Rattle.ep_replay.specs.Heads.{opening_of};

use ep_base::{Command, CommandFault, Key, Value};
use ep_exec::{Contents, Store};
use ep_journal::{Beginning, Opening};
use ep_script::{Head, ScriptOpening as Said};
use ep_world::World;
use std::alloc::{AllocError, Global};

/// Gives the key of the entry its value.
fn put(alloc: Global, store: &mut Store, entry: &(Key, Value)) -> Result<(), AllocError>
    ensures { OnOk result (store.new ≡ after store.old (Put entry.now.0 entry.now.1)) }
{
    let (key, value) = entry;
    let command = command(alloc, key, value)?;
    let _reply = store.apply(&command)?;
    Ok(())
}

fn command(alloc: Global, key: &Key, value: &Value) -> Result<Command, AllocError>
    ensures { IfOk result (λ c. c ≡ Put key.now value.now) }
{
    match Command::put(alloc, key.as_slice(), value.as_slice()) {
        Ok(command) => Ok(command),
        Err(CommandFault::OutOfRange) => unreachable!(),
        Err(CommandFault::Memory) => Err(AllocError),
    }
}

/// The map of these entries.
fn contents(alloc: Global, entries: &[(Key, Value)]) -> Result<Contents, AllocError>
    ensures { IfOk result (λ c. c ≡ from_entries entries.now) }
{
    let mut store = Store::new(alloc);
    for index in (0..entries.len()).rev() {
        put(alloc, &mut store, &entries[index])?;
    }
    match store.contents() {
        Ok(contents) => Ok(contents),
        Err(_) => Err(AllocError),
    }
}

/// What the replicas open with, as journals have it. (No script has as many keys as an opening has no room for: there is no memory for them.)
fn opening_of(alloc: Global, said: &Said) -> Result<Opening, AllocError>
    ensures { IfOk result (λ o. o ≡ opening_of said.now) }
{
    let contents = contents(alloc, said.entries())?;
    match Opening::new(contents, said.base_stamp()) {
        Ok(opening) => Ok(opening),
        Err(_) => Err(AllocError),
    }
}

/// What the replicas begin with that the head names.
pub fn beginning_of(alloc: Global, head: &Head) -> Result<Beginning, AllocError>
    ensures version { IfOk result (λ b. b.version ≡ head.now.version) }
    ensures opening { IfOk result (λ b. b.opening ≡ opening_of head.now.opening) }
    ensures known { IfOk result (λ b. 2 ≤ version_number b.version) }
{
    let opening = opening_of(alloc, head.opening())?;
    Beginning::opened(alloc, head.version(), opening)
}

/// The world that the head names, before any event.
pub fn begun(alloc: Global, head: &Head) -> Result<World, AllocError>
    ensures version { IfOk result (λ w. w.version ≡ head.now.version) }
    ensures faults { IfOk result (λ w. w.faults ≡ head.now.faults) }
    ensures opening { IfOk result (λ w. w.opening ≡ opening_of head.now.opening) }
    ensures entries { IfOk result (λ w. (r : ℕ) → entries_in w r ≡ []) }
    ensures steps { IfOk result (λ w. w.steps ≡ []) }
    ensures messages { IfOk result (λ w. w.messages ≡ []) }
{
    let beginning = beginning_of(alloc, head)?;
    World::opened(alloc, head.size(), &beginning)
}
