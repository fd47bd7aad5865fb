//! What the keys have after a history.

ghost use Rattle.std.specs.Prelude.{◌≡◌, ◌<◌, ◌^◌, length, IfOk, OnOk};
ghost use Rattle.std.specs.FinMap.{entries};
ghost use Rattle.ep_journal.specs.Openings.{opens};
ghost use Rattle.ep_rules.specs.OneMap.{after};
ghost use Rattle.ep_audit.specs.Verdicts.{left_by};

use crate::happening::Happening;
use ep_base::Command;
use ep_exec::{Contents, Store};
use ep_journal::Opening;
use std::alloc::{AllocError, Global};

/// Does a command; a no-op does nothing.
#[tactic(auto, using(crate::proofs::FirstSeals::nothing_done))]
fn apply(store: &mut Store, command: &Command) -> Result<(), AllocError>
    ensures { OnOk result (store.new ≡ after store.old command.now) }
{
    if command.is_noop() {
        return Ok(());
    }
    let _reply = store.apply(command)?;
    Ok(())
}

/// What the keys have after the history, from the opening on; more than fit into 32 bits count as out of memory.
pub fn contents_of(
    alloc: Global,
    opening: &Opening,
    history: &[Happening],
) -> Result<Contents, AllocError>
    ensures value { IfOk result (λ m. m ≡ left_by (opens opening.now) history.now) }
    ensures few { IfOk result (λ m. length (entries m) < 2 ^ 32) }
{
    let mut store = Store::opened(alloc, opening.contents())?;
    for happening in history {
        apply(&mut store, &happening.command)?;
    }
    listed(&store)
}

/// What the keys have, in rising order of keys.
fn listed(store: &Store) -> Result<Contents, AllocError>
    ensures value { IfOk result (λ m. m ≡ store.now.contents) }
    ensures few { IfOk result (λ m. length (entries m) < 2 ^ 32) }
{
    let Ok(contents) = store.contents() else {
        return Err(AllocError);
    };
    if !contents.is_within(4_294_967_295) {
        return Err(AllocError);
    }
    Ok(contents)
}
