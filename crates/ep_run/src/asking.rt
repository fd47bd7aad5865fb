//! What a line of a section asks of its replica.

ghost use Rattle.std.specs.Prelude.{◌≡◌, ◌+◌, ◌++◌, ◌∷◌, [], ℕ, List, IfOk, OnOk};
ghost use Rattle.ep_host.specs.declared.task.Task.TheVariants.{Propose};
ghost use Rattle.ep_replay.specs.Clients.{times, greatest};
ghost use Rattle.ep_replay.specs.Tables.{AreCounted};
ghost use Rattle.ep_rules.specs.declared.receipt.Receipt.{Receipt};
ghost use Rattle.ep_run.specs.Asking.{asked_of, proposers_after};

use ep_base::{Command, ReplicaId};
use ep_host::Task;
use ep_replay::Clients;
use ep_script::AgendaLine;
use std::alloc::{AllocError, Global};

/// Who is asked for what by the line.
pub(crate) fn asked_by(
    alloc: Global,
    clients: &mut Clients,
    asked: &AgendaLine,
) -> Result<(ReplicaId, Task), AllocError>
    ensures asked { IfOk result (λ p. (ps : List ℕ) (ts : List Receipt) → AreCounted clients.old ps ts → p ≡ asked_of ps ts asked.now) }
    ensures counted { OnOk result ((ps : List ℕ) (ts : List Receipt) → AreCounted clients.old ps ts → AreCounted clients.new (proposers_after ps asked.now) ts) }
{
    match asked {
        AgendaLine::Propose {
            replica,
            client,
            command,
            spared,
        } => {
            let proposal = proposal(alloc, clients, *client, command, *spared)?;
            Ok((*replica, proposal))
        }
        AgendaLine::GiveUp(replica, instance) => { Ok((*replica, Task::GiveUp(*instance))) }
        AgendaLine::Recover(replica, instance) => { Ok((*replica, Task::Recover(*instance))) }
    }
}

/// The client's next proposal.
fn proposal(
    alloc: Global,
    clients: &mut Clients,
    client: u32,
    command: &Command,
    spared: Option<ReplicaId>,
) -> Result<Task, AllocError>
    ensures asked { IfOk result (λ a. (ps : List ℕ) (ts : List Receipt) → AreCounted clients.old ps ts → a ≡ Propose client (times client ps + 1) command.now (greatest client ts) spared) }
    ensures counted { OnOk result ((ps : List ℕ) (ts : List Receipt) → AreCounted clients.old ps ts → AreCounted clients.new (ps ++ client ∷ []) ts) }
{
    let known = clients.count(client)?;
    let command = command.copy(alloc)?;
    Ok(Task::Propose {
        client,
        request: known.requests,
        command,
        seen: known.seen,
        spared,
    })
}
